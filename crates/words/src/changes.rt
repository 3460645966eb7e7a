// What is plain from the bench before and after an item's event.
ghost use Rattle.std.specs.Prelude.{◌≡◌, cond, [], eqb};
ghost use Rattle.report.specs.Text.{ascii};
ghost use Rattle.turns.specs.Stand.{opens, closes};
ghost use Rattle.words.specs.Changes.{code_comes, falls_asleep, power_back, flips, changes, turned, sampled_by};
ghost use Rattle.words.specs.Lines.{said, open_line, code_line, close_line, latch_line, kept_line};
ghost use Rattle.report.specs.Prints.{Prints};

use crate::lines::{print_close, print_code, print_note, print_open, say};
use pins::state::State;
use pins::watch::sees_rise;
use report::page::Page;
use report::record::{CODE_CLOCKS, Record, sample};
use select::notes::Note;
use stages::bits::Taken;
use stages::close::is_asleep;
use turns::stand::Stand;

// The eighth clock of a select that is not ignored.
#[tactic(auto, unfolding(crate::specs::Changes::code_comes))]
fn code_comes(before: Record, after: Record) -> bool
    ensures { result ≡ code_comes before after }
{
    (before.clocks < CODE_CLOCKS) & (CODE_CLOCKS <= after.clocks) & !after.ignored
}

// The part falls asleep.
#[tactic(auto, unfolding(crate::specs::Changes::falls_asleep))]
fn falls_asleep(before: State, after: State) -> bool
    ensures { result ≡ falls_asleep before after }
{
    let was = before.stage;
    let is = after.stage;
    is_asleep(is) & !is_asleep(was)
}

// Power is back.
#[tactic(auto, unfolding(crate::specs::Changes::power_back))]
fn power_back(before: State, after: State) -> bool
    ensures { result ≡ power_back before after }
{
    !before.power & after.power
}

// What changed.
#[tactic(auto, unfolding(crate::specs::Changes::changes))]
pub fn tell_changes(page: &mut Page, place: usize, before: Stand, after: Stand)
    ensures { Prints page.old (changes place before after) page.new }
{
    let was = before.chip;
    let is = after.chip;
    let told = after.told;
    if power_back(was, is) {
        say(page, place, b"power back");
    }
    if before.opens(is) {
        print_open(page, place, after);
    }
    if code_comes(before.told, told) {
        print_code(page, place, is.part, told.code);
    }
    if before.closes(is) {
        print_close(page, place, after);
    }
    if falls_asleep(was, is) {
        say(page, place, b"the part sleeps");
    }
}

// The latch and the kept bits, where a run of pulses turned them.
#[tactic(auto, unfolding(crate::specs::Changes::turned, crate::specs::Lines::note_text))]
pub fn tell_turned(page: &mut Page, place: usize, before: State, after: State)
    ensures { Prints page.old (turned place before after) page.new }
{
    if before.latch != after.latch {
        print_note(page, place, Note::Latch(after.latch));
    }
    if before.kept != after.kept {
        print_note(page, place, Note::KeptSet(after.kept));
    }
}

// What SO showed before an event.
#[tactic(auto, unfolding(crate::specs::Changes::sampled_by))]
pub fn sampled_by(stand: Stand, code: u64) -> Taken
    ensures { result ≡ sampled_by stand code }
{
    let chip = stand.chip;
    let told = stand.told;
    if sees_rise(chip, code) {
        return sample(told.sample, chip.so());
    }
    Taken::Part(told.sample)
}
