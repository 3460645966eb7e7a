// The array at the end: rows of 16 bytes, without the rows that are fresh.
ghost use Rattle.std.specs.Prelude.{◌≡◌, ◌/◌, length};
ghost use Rattle.words.specs.Dump.{row_bytes, all_fresh, spaced_byte, spaced, row_text, rows_text, array_text};
ghost use Rattle.report.specs.Prints.{Prints};

use crate::page::print_address;
use report::page::Page;
use supply::power::FRESH;

// The bytes of a row; `specs/Dump.antt` has them for the definitions.
const ROW: usize = 16;

// Whether every byte is that of a fresh array.
#[tactic(auto, unfolding(crate::specs::Dump::all_fresh))]
fn all_fresh(bytes: &[u8]) -> bool
    ensures { result ≡ all_fresh bytes.now }
{
    bytes.iter().all(|&byte| byte == FRESH)
}

// A byte in hex, a space before it.
#[tactic(auto, unfolding(crate::specs::Dump::spaced_byte))]
fn print_one(page: &mut Page, byte: u8)
    ensures { Prints page.old (spaced_byte byte) page.new }
{
    page.print(b" ");
    page.print_hex(byte);
}

// Bytes, one behind the other.
fn print_spaced(page: &mut Page, bytes: &[u8])
    ensures { Prints page.old (spaced bytes.now) page.new }
{
    for &byte in bytes {
        print_one(page, byte);
    }
}

// A row, where it is not fresh.
#[tactic(auto, unfolding(crate::specs::Dump::row_text))]
fn print_row(page: &mut Page, address: usize, row: &[u8])
    ensures { Prints page.old (row_text address row.now) page.new }
{
    if all_fresh(row) {
        return;
    }
    print_address(page, address);
    page.print(b":");
    print_spaced(page, row);
    page.print(b"\n");
}

// The rows, each with the address of its first byte.
fn print_rows(page: &mut Page, array: &[u8])
    ensures { Prints page.old (rows_text array.now (length array.now / row_bytes) 0) page.new }
{
    for (i, row) in array.chunks_exact(ROW).enumerate() {
        print_row(page, i * ROW, row);
    }
}

// The array.
#[tactic(auto, unfolding(crate::specs::Dump::array_text))]
pub fn print_array(page: &mut Page, array: &[u8])
    ensures { Prints page.old (array_text array.now) page.new }
{
    if all_fresh(array) {
        page.print(b"array: all FF\n");
        return;
    }
    page.print(b"array, where it is not FF:\n");
    print_rows(page, array);
}
