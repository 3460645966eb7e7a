// The lines of the story, each with the place in the trace of the item that it is about.
ghost use Rattle.words.specs.Lines.{begun, said, power_line, open_line, code_line, close_line, stored_line, held_line, kept_line, kept_held_line, latch_line, note_text, byte_line, shown_text, refused_line, grown_text, run_line, left_line, end_line};
ghost use Rattle.report.specs.Prints.{Prints};

use crate::page::print_address;
use crate::words::{print_advice, print_command, print_reason};
use parts::commands::decode;
use parts::figures::figure_of;
use parts::guards::Reason;
use report::page::Page;
use report::record::Record;
use select::notes::Note;
use stages::bits::Taken;
use turns::stand::Stand;

// A line's beginning.
#[tactic(auto, unfolding(crate::specs::Lines::begun))]
fn begin(page: &mut Page, place: usize, words: &[u8])
    ensures { Prints page.old (begun place words.now) page.new }
{
    page.print_decimal(place as u64);
    page.print(b": ");
    page.print(words);
}

// A line of words alone.
#[tactic(auto, unfolding(crate::specs::Lines::said))]
pub fn say(page: &mut Page, place: usize, words: &[u8])
    ensures { Prints page.old (said place words.now) page.new }
{
    begin(page, place, words);
    page.print(b"\n");
}

// Power-up.
#[tactic(auto, unfolding(crate::specs::Lines::power_line))]
pub fn print_power(page: &mut Page, part: u64, size: u64, kept: u8)
    ensures { Prints page.old (power_line part size kept) page.new }
{
    begin(page, 0, b"power-up of part ");
    page.print_decimal(part);
    page.print(b", ");
    page.print_decimal(size);
    page.print(b" bytes, kept bits ");
    page.print_hex(kept);
    page.print(b"\n");
}

// A select opens.
#[tactic(auto, unfolding(crate::specs::Lines::open_line))]
pub fn print_open(page: &mut Page, place: usize, stand: Stand)
    ensures { Prints page.old (open_line place stand) page.new }
{
    let told = stand.told;
    begin(page, place, b"select ");
    page.print_decimal(stand.selects);
    if told.ignored {
        page.print(b" wakes the part and is ignored\n");
    } else {
        page.print(b"\n");
    }
}

// An op-code is whole.
#[tactic(auto, unfolding(crate::specs::Lines::code_line))]
pub fn print_code(page: &mut Page, place: usize, part: u8, code: u8)
    ensures { Prints page.old (code_line place part code) page.new }
{
    let f = figure_of(part as u64);
    let ops = f.ops;
    let command = decode(ops, code);
    begin(page, place, b"op-code ");
    page.print_hex(code);
    page.print(b" ");
    print_command(page, command);
    page.print(b"\n");
}

// A select ends.
#[tactic(auto, unfolding(crate::specs::Lines::close_line))]
pub fn print_close(page: &mut Page, place: usize, stand: Stand)
    ensures { Prints page.old (close_line place stand) page.new }
{
    let told = stand.told;
    begin(page, place, b"select ");
    page.print_decimal(stand.selects);
    page.print(b" ends, clocks ");
    page.print_decimal(told.clocks);
    page.print(b"\n");
}

// A byte was stored.
#[tactic(auto, unfolding(crate::specs::Lines::stored_line))]
fn print_stored(page: &mut Page, place: usize, address: usize, byte: u8)
    ensures { Prints page.old (stored_line place address byte) page.new }
{
    begin(page, place, b"stored ");
    page.print_hex(byte);
    page.print(b" at ");
    print_address(page, address);
    page.print(b"\n");
}

// A byte was held back.
#[tactic(auto, unfolding(crate::specs::Lines::held_line))]
fn print_held(page: &mut Page, place: usize, address: usize, reason: Reason)
    ensures { Prints page.old (held_line place address reason) page.new }
{
    begin(page, place, b"held back at ");
    print_address(page, address);
    page.print(b": ");
    print_reason(page, reason);
    page.print(b"\n");
}

// Kept bits were set.
#[tactic(auto, unfolding(crate::specs::Lines::kept_line))]
fn print_kept(page: &mut Page, place: usize, kept: u8)
    ensures { Prints page.old (kept_line place kept) page.new }
{
    begin(page, place, b"kept bits set to ");
    page.print_hex(kept);
    page.print(b"\n");
}

// Kept bits were held back.
#[tactic(auto, unfolding(crate::specs::Lines::kept_held_line))]
fn print_kept_held(page: &mut Page, place: usize, reason: Reason)
    ensures { Prints page.old (kept_held_line place reason) page.new }
{
    begin(page, place, b"kept bits held back: ");
    print_reason(page, reason);
    page.print(b"\n");
}

// The latch, changed or not.
#[tactic(auto, unfolding(crate::specs::Lines::latch_line))]
fn print_latch(page: &mut Page, place: usize, on: bool)
    ensures { Prints page.old (latch_line place on) page.new }
{
    if on {
        say(page, place, b"latch on");
    } else {
        say(page, place, b"latch off");
    }
}

// What a note says.
#[tactic(auto, unfolding(crate::specs::Lines::note_text))]
pub fn print_note(page: &mut Page, place: usize, note: Note)
    ensures { Prints page.old (note_text place note) page.new }
{
    match note {
        Note::Nothing => {}
        Note::Latch(on) => print_latch(page, place, on),
        Note::Stored(address, byte) => print_stored(page, place, address, byte),
        Note::HeldBack(address, reason) => print_held(page, place, address, reason),
        Note::KeptSet(kept) => print_kept(page, place, kept),
        Note::KeptHeldBack(reason) => print_kept_held(page, place, reason),
        Note::PowerLost => say(page, place, b"power lost"),
    }
}

// A byte that SO showed.
#[tactic(auto, unfolding(crate::specs::Lines::byte_line))]
fn print_byte(page: &mut Page, place: usize, byte: u8)
    ensures { Prints page.old (byte_line place byte) page.new }
{
    begin(page, place, b"shown ");
    page.print_hex(byte);
    page.print(b"\n");
}

// What SO showed, where it is a whole byte.
#[tactic(auto, unfolding(crate::specs::Lines::shown_text))]
pub fn print_shown(page: &mut Page, place: usize, taken: Taken)
    ensures { Prints page.old (shown_text place taken) page.new }
{
    match taken {
        Taken::Part(_) => {}
        Taken::Whole(byte) => print_byte(page, place, byte),
    }
}

// A refusal, by its number: every number has a line.
#[tactic(auto, unfolding(crate::specs::Lines::refused_line))]
pub fn print_refused(page: &mut Page, place: usize, row: u8)
    ensures { Prints page.old (refused_line place row) page.new }
{
    begin(page, place, b"refused ");
    page.print_decimal(u64::from(row));
    print_advice(page, row);
    page.print(b"\n");
}

// A word, and how much a count grew.
#[tactic(auto, unfolding(crate::specs::Lines::grown_text))]
fn print_grown(page: &mut Page, word: &[u8], before: u64, after: u64)
    ensures { Prints page.old (grown_text word.now before after) page.new }
{
    page.print(word);
    page.print_decimal(after.saturating_sub(before));
}

// A run of pulses.
#[tactic(auto, unfolding(crate::specs::Lines::run_line))]
pub fn print_run(page: &mut Page, place: usize, pulses: u64, before: Record, after: Record)
    ensures { Prints page.old (run_line place pulses before after) page.new }
{
    begin(page, place, b"run: pulses ");
    page.print_decimal(pulses);
    print_grown(page, b", clocks ", before.clocks, after.clocks);
    print_grown(page, b", bytes stored ", before.stored, after.stored);
    print_grown(page, b", bytes shown ", before.shown, after.shown);
    page.print(b"\n");
}

// A select that is open at the end.
#[tactic(auto, unfolding(crate::specs::Lines::left_line))]
pub fn print_left(page: &mut Page, stand: Stand)
    ensures { Prints page.old (left_line stand) page.new }
{
    let told = stand.told;
    page.print(b"end: select ");
    page.print_decimal(stand.selects);
    page.print(b" is open, clocks ");
    page.print_decimal(told.clocks);
    page.print(b"\n");
}

// The end.
#[tactic(auto, unfolding(crate::specs::Lines::end_line))]
pub fn print_end(page: &mut Page, kept: u8, latch: bool)
    ensures { Prints page.old (end_line kept latch) page.new }
{
    page.print(b"end: kept bits ");
    page.print_hex(kept);
    if latch {
        page.print(b", latch on\n");
    } else {
        page.print(b", latch off\n");
    }
}
