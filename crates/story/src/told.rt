// What is told of an event, of an item and of all items, while the bench takes them.
ghost use Rattle.std.specs.Prelude.{◌≡◌};
ghost use Rattle.trace.specs.Items.{short_events};
ghost use Rattle.report.specs.Page.{printed};
ghost use Rattle.report.specs.Prints.{Prints, page_in};
ghost use Rattle.story.specs.Scene.{scene_of, accepted_text, event_scene, event_text, events_scene, events_text, run_scene, pulses_text, run_text, item_scene, item_text};
ghost use Rattle.story.specs.Story.{left_open, end_text, left_text};

use chip::event::event;
use pins::watch::is_open;
use pulses::run::take_pulses;
use report::page::Page;
use select::notes::Note;
use trace::answer::Read;
use trace::items::{event_of, events_of, pulses_of};
use trace::reader::number_at;
use turns::stand::Stand;
use turns::turn::{Bench, REPLAY_SERIAL};
use words::changes::{sampled_by, tell_changes, tell_turned};
use words::dump::print_array;
use words::lines::{print_end, print_left, print_note, print_refused, print_run, print_shown};

// One event.
fn tell_event(bench: &mut Bench, page: &mut Page, place: usize, code: u64)
    ensures scene { scene_of bench.new ≡ event_scene (scene_of bench.old) code }
    ensures prints { Prints page.old (event_text (scene_of bench.old) place code) page.new }
{
    let before = bench.stand;
    let answer = event(before.chip, bench.array, &REPLAY_SERIAL, code);
    bench.refusal = answer.refusal;
    match answer.refusal {
        Some(refusal) => print_refused(page, place, u8::from(refusal)),
        None => {
            let after = before.after(code, answer, &mut bench.shown);
            bench.stand = after;
            tell_accepted(page, place, before, code, after, answer.note);
        }
    }
}

// An event or a data byte: its events, up to the first that is refused.
fn tell_short(bench: &mut Bench, page: &mut Page, place: usize, item: u64)
    ensures scene { scene_of bench.new ≡ events_scene (scene_of bench.old) (short_events item) }
    ensures prints { Prints page.old (events_text (scene_of bench.old) place (short_events item)) page.new }
{
    for k in 0..events_of(item) {
        if bench.refusal.is_some() {
            return;
        }
        tell_event(bench, page, place, event_of(item, k));
    }
}

// A run of pulses, by sums. The report's lines are put on the bench's page, which nobody reads.
fn tell_run(bench: &mut Bench, page: &mut Page, place: usize, pulses: u64)
    ensures scene { scene_of bench.new ≡ run_scene (scene_of bench.old) pulses }
    ensures prints { Prints page.old (run_text (scene_of bench.old) place pulses) page.new }
{
    let before = bench.stand;
    take_pulses(bench, pulses);
    tell_pulses(page, place, pulses, before, bench.stand);
}

// One item.
fn tell_item(bench: &mut Bench, page: &mut Page, place: usize, item: u64)
    ensures scene { scene_of bench.new ≡ item_scene (scene_of bench.old) item }
    ensures prints { Prints page.old (item_text (scene_of bench.old) place item) page.new }
{
    let pulses = pulses_of(item);
    if 0 < pulses {
        tell_run(bench, page, place, pulses);
    } else {
        tell_short(bench, page, place, item);
    }
}

// The items from `at` on, up to the end or the first refusal. A number's read gives the place of the next one, so there is no
// range to go over.
pub(crate) fn tell_items(bench: &mut Bench, page: &mut Page, trace: &[u8], at: usize)
    ensures same_slice { page.new.out.ghost_name ≡ page.old.out.ghost_name }
    ensures page { printed (page_in page.new) (end_text bench.new.stand bench.new.array.now)
        ≡ printed (page_in page.old) (left_text trace.now at (scene_of bench.old)) }
{
    let mut place = at;
    while bench.refusal.is_none() {
        match number_at(trace, place) {
            Ok(Read::Number { value, next }) => {
                tell_item(bench, page, place, value);
                place = next;
            }
            Ok(Read::End { .. }) => {
                return;
            }
            Err(refused) => {
                print_refused(page, place, u8::from(refused.refusal));
                return;
            }
        }
    }
}

// An accepted event: what changed, what SO showed, and its note.
#[tactic(auto, unfolding(crate::specs::Scene::accepted_text))]
fn tell_accepted(page: &mut Page, place: usize, before: Stand, code: u64, after: Stand, note: Note)
    ensures { Prints page.old (accepted_text place before code after note) page.new }
{
    let shown = sampled_by(before, code);
    tell_changes(page, place, before, after);
    print_shown(page, place, shown);
    print_note(page, place, note);
}

// A run of pulses, by what stood before it and after it.
#[tactic(auto, unfolding(crate::specs::Scene::pulses_text))]
fn tell_pulses(page: &mut Page, place: usize, pulses: u64, before: Stand, after: Stand)
    ensures { Prints page.old (pulses_text place pulses before after) page.new }
{
    print_run(page, place, pulses, before.told, after.told);
    tell_changes(page, place, before, after);
    tell_turned(page, place, before.chip, after.chip);
}

// A select that is open at the end.
fn tell_left(page: &mut Page, stand: Stand)
    ensures { Prints page.old (left_open stand) page.new }
{
    if is_open(stand.chip) {
        print_left(page, stand);
    }
}

// The end: a select that is open, kept bits, the latch, and the array.
#[tactic(auto, unfolding(crate::specs::Story::end_text))]
pub(crate) fn tell_end(page: &mut Page, stand: Stand, array: &[u8])
    ensures { Prints page.old (end_text stand array.now) page.new }
{
    tell_left(page, stand);
    print_end(page, stand.chip.kept, stand.chip.latch);
    print_array(page, array);
}
