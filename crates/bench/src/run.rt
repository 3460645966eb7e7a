// The run of a trace: power-up, then item by item.
ghost use Rattle.std.specs.Prelude.{◌≡◌};
ghost use Rattle.supply.specs.Power.{power_up, fresh, filled};
ghost use Rattle.turns.specs.Bench.{Takes, after_events};
ghost use Rattle.report.specs.Prints.{Prints};
ghost use Rattle.trace.specs.Items.{short_events};
ghost use Rattle.bench.specs.Run.{after_item, ran_from, first_text};

use crate::head::Head;
use parts::figures::figure_of;
use pulses::run::take_pulses;
use report::page::Page;
use supply::power::{Powered, fill, power_up};
use trace::answer::Read;
use trace::items::{event_of, events_of, pulses_of};
use trace::reader::number_at;
use turns::turn::Bench;

// An event or a data byte: its events, up to the first that is refused.
fn take_short(bench: &mut Bench, item: u64)
    ensures { Takes bench.old (λ b. after_events b (short_events item)) bench.new }
{
    for k in 0..events_of(item) {
        if bench.refusal.is_some() {
            return;
        }
        bench.take_event(event_of(item, k));
    }
}

// One item. A run of pulses has a way of its own.
fn take_item(bench: &mut Bench, item: u64)
    ensures { Takes bench.old (λ b. after_item b item) bench.new }
{
    let pulses = pulses_of(item);
    if 0 < pulses {
        take_pulses(bench, pulses);
    } else {
        take_short(bench, item);
    }
}

// The items from `at` on, up to the end or the first refusal. A number's read gives the place of the next one, so there is no
// range to go over.
pub(crate) fn take_items(bench: &mut Bench, trace: &[u8], at: usize)
    ensures { Takes bench.old (ran_from trace.now at) bench.new }
{
    let mut place = at;
    while bench.refusal.is_none() {
        match number_at(trace, place) {
            Ok(Read::Number { value, next }) => {
                take_item(bench, value);
                place = next;
            }
            Ok(Read::End { .. }) => return,
            Err(refused) => {
                bench.refusal = Some(refused.refusal);
                return;
            }
        }
    }
}

// Line 1, where the power-up is accepted.
fn print_first(page: &mut Page, head: Head, powered: Powered)
    ensures { Prints page.old (first_text head powered) page.new }
{
    if powered.refusal.is_none() {
        let size = figure_of(head.part).size;
        page.print_part(head.part, size as u64, powered.state.kept);
    }
}

// Power-up, with a fresh array. Line 1 is printed where it is accepted.
pub(crate) fn start(head: Head, array: &mut [u8], page: &mut Page) -> Powered
    ensures power { result ≡ power_up head.part head.kept array.new }
    ensures all_fresh { array.new ≡ filled head.part fresh array.old }
    ensures prints { Prints page.old (first_text head result) page.new }
{
    // A part or an array that the fill refuses is refused by the power-up too.
    let _ = fill(head.part, array);
    let powered = power_up(head.part, head.kept, array);
    print_first(page, head, powered);
    powered
}
