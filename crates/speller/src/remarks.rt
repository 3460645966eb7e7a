// What is said of a text that spells no trace: one line, put at the front of a lent buffer, whose rest stays as it was; the
// answer is its length.
ghost use Rattle.std.specs.Prelude.{◌≡◌, ◌++◌, ◌≤◌, length, drop};
ghost use Rattle.io.specs.Counts.{IsPrefixLen};
ghost use Rattle.report.specs.Page.{page_of, printed};
ghost use Rattle.report.specs.Prints.{Prints};
ghost use Rattle.speller.specs.Remarks.{most_expected, expected_text, place_text, wrong_text, full_text, remark_of};

use report::lines::LINE;
use report::page::Page;
use sayings::says::Next;
use spelling::spell::{Fault, Place};

// What was expected.
#[tactic(auto, unfolding(crate::specs::Remarks::expected_text))]
fn expected_text(expected: Next) -> &'static [u8]
    ensures upper_bound { length result.now ≤ most_expected }
    ensures value { result.now ≡ expected_text expected }
{
    match expected {
        Next::Part => b"the part, as in: part 1 kept 00",
        Next::PartNumber => b"the part's number (0 to 267), as in: part 1 kept 00",
        Next::Kept => b"kept or the line's end, as in: part 1 kept 00",
        Next::KeptByte => b"the kept bits as two hex digits, as in: part 1 kept 00",
        Next::LineEnd => b"the line's end",
        Next::Word =>
            b"two hex digits or a word (cs sck si hold wp vdd cut power idle held bits item)",
        Next::Level { .. } => b"low or high",
        Next::Idle | Next::Held => b"a number of pulses (1 to 268435188)",
        Next::Bits => b"bits, each 0 or 1",
        Next::Item => b"an item's number (0 to 268435455)",
    }
}

// Line and column.
#[tactic(auto, unfolding(crate::specs::Remarks::place_text))]
fn print_place(page: &mut Page, place: Place)
    ensures { Prints page.old (place_text place) page.new }
{
    page.print_numbered(b"line ", place.line);
    page.print_numbered(b", column ", place.column);
}

// A text that is wrong at a place.
#[tactic(auto, unfolding(crate::specs::Remarks::wrong_text))]
fn print_wrong(page: &mut Page, place: Place, expected: Next)
    ensures { Prints page.old (wrong_text place expected) page.new }
{
    print_place(page, place);
    page.print(b": expected ");
    page.print(expected_text(expected));
    page.print(b"\n");
}

// A text whose trace is too long from a place on.
#[tactic(auto, unfolding(crate::specs::Remarks::full_text))]
fn print_full(page: &mut Page, place: Place)
    ensures { Prints page.old (full_text place) page.new }
{
    print_place(page, place);
    page.print(b": expected the text's end, since a trace has at most 32768 bytes\n");
}

// The line; none where the text spells a trace.
#[tactic(auto, unfolding(crate::specs::Remarks::remark_of, crate::specs::Remarks::long_text))]
fn print_remark(page: &mut Page, answer: Result<usize, Fault>)
    ensures { Prints page.old (remark_of answer) page.new }
{
    match answer {
        Ok(_) => {}
        Err(Fault::Wrong { place, expected }) => print_wrong(page, place, expected),
        Err(Fault::Full { place }) => print_full(page, place),
        Err(Fault::Long) => page.print(b"expected a text of at most 262144 characters\n"),
    }
}

// The same, put at the front of a slice.
fn put_remark(out: &mut [u8], answer: Result<usize, Fault>) -> usize
    ensures { page_of out.new result ≡ printed (page_of out.old 0) (remark_of answer) }
{
    let mut page = Page::new(out);
    print_remark(&mut page, answer);
    page.len()
}

// The same, at the front of a buffer that has room for any of them.
pub fn remark(out: &mut [u8; LINE], answer: Result<usize, Fault>) -> usize
    ensures prefix_len { IsPrefixLen result out.new }
    ensures value { result ≡ length (remark_of answer) }
    ensures out_after { out.new ≡ remark_of answer ++ drop result out.old }
{
    put_remark(out, answer)
}
