// The story of a trace, as text in a lent slice.
ghost use Rattle.std.specs.Prelude.{◌≡◌};
ghost use Rattle.report.specs.Page.{page_of, printed};
ghost use Rattle.report.specs.Prints.{Prints};
ghost use Rattle.story.specs.Story.{story, not_powered, from_power, powered_text};

use crate::told::{tell_end, tell_items};
use bench::head::{Head, head_of};
use parts::figures::{LARGEST, figure_of};
use pins::state::State;
use refusals::refusal::Refusal;
use report::page::Page;
use report::record::SHOWN;
use supply::power::{fill, power_up};
use turns::stand::Stand;
use turns::turn::Bench;
use words::lines::{print_power, print_refused};

// A trace that does not come to power-up.
#[tactic(auto, unfolding(crate::specs::Story::not_powered))]
fn print_not_powered(page: &mut Page, refusal: Refusal)
    ensures { Prints page.old (not_powered refusal) page.new }
{
    print_refused(page, 0, u8::from(refusal));
    page.print(b"end: no power-up\n");
}

// From an accepted power-up on.
fn tell_powered(page: &mut Page, trace: &[u8], lead: Head, chip: State, array: &mut [u8])
    ensures { Prints page.old (from_power trace.now lead chip array.old) page.new }
{
    let size = figure_of(lead.part).size;
    print_power(page, lead.part, size as u64, chip.kept);
    let mut unread = [0u8; 1];
    let mut aside = Page::new(&mut unread);
    let mut bench = Bench {
        refusal: None,
        stand: Stand::new(chip),
        array,
        shown: [0; SHOWN],
        page: &mut aside,
    };
    tell_items(&mut bench, page, trace, lead.items);
    tell_end(page, bench.stand, bench.array);
}

// From power-up on, with an array of the part's size.
fn tell_power(page: &mut Page, trace: &[u8], lead: Head, array: &mut [u8])
    ensures { Prints page.old (powered_text trace.now lead array.old) page.new }
{
    // Where it is refused, so is power-up, for the same reason.
    let _ = fill(lead.part, array);
    let powered = power_up(lead.part, lead.kept, array);
    match powered.refusal {
        Some(refusal) => print_not_powered(page, refusal),
        None => tell_powered(page, trace, lead, powered.state, array),
    }
}

// The story on a page.
fn print_story(page: &mut Page, trace: &[u8])
    ensures { Prints page.old (story trace.now) page.new }
{
    match head_of(trace) {
        Err(no_head) => print_not_powered(page, no_head.refusal),
        Ok(lead) => {
            let mut array = [0u8; LARGEST];
            let size = figure_of(lead.part).size;
            tell_power(page, trace, lead, &mut array[..size]);
        }
    }
}

// Puts the story of a trace into `out`, cut where the slice ends, and answers how many bytes that is. The rest of the
// slice stays.
pub fn story(trace: &[u8], out: &mut [u8]) -> usize
    ensures { page_of out.new result ≡ printed (page_of out.old 0) (story trace.now) }
{
    let mut page = Page::new(out);
    print_story(&mut page, trace);
    page.len()
}
