// Whether pulses can be answered by a sum, and the counts that they come to.
ghost use Rattle.std.specs.Prelude.{◌≡◌, ◌+◌, ◌≤◌};
ghost use Rattle.pulses.specs.Pulse.{skipped};
ghost use Rattle.pulses.specs.Sums.{most, room, counts_on, steady, idle, more};

use parts::figures::figure_of;
use pins::hold::hold_high;
use pins::sound::sound;
use pins::state::State;
use report::record::{CODE_CLOCKS, Record};
use stages::close::is_closed;
use turns::stand::Stand;

// What stands after some pulses, and how many are left.
#[derive(Clone, Copy)]
pub struct Skipped {
    pub stand: Stand,
    pub left: u64,
}

// Nothing is skipped.
pub(crate) fn nothing(stand: Stand, pulses: u64) -> Skipped
    ensures { result ≡ skipped stand pulses }
{
    Skipped {
        stand,
        left: pulses,
    }
}

// The largest number that a count can hold.
const MOST: u64 = u64::MAX;

// Whether so many more can be counted.
fn has_room(count: u64, more: u64) -> bool
    ensures { result ≡ room count more }
{
    more <= MOST - count
}

// Whether the op-code is whole and no count stops within so many pulses.
#[tactic(auto, unfolding(crate::specs::Sums::counts_on))]
pub(crate) fn counts_on(told: Record, pulses: u64) -> bool
    ensures { result ≡ counts_on told pulses }
{
    (CODE_CLOCKS <= told.clocks)
        & has_room(told.clocks, pulses)
        & has_room(told.shown, pulses)
        & has_room(told.stored, pulses)
}

// Whether the checks of an event let the chip and the array through, and SCK is low.
#[tactic(auto, unfolding(crate::specs::Sums::steady))]
pub(crate) fn is_steady(chip: State, len: usize) -> bool
    ensures { result ≡ steady chip len }
{
    !chip.sck & sound(chip) & (len == figure_of(chip.part as u64).size)
}

// Whether no select sees a pulse.
#[tactic(auto, unfolding(crate::specs::Sums::idle))]
pub(crate) fn is_idle(chip: State) -> bool
    ensures { result ≡ idle chip }
{
    let hold = chip.hold;
    let stage = chip.stage;
    !chip.power | !hold_high(hold) | is_closed(stage)
}

// So many more of each count.
pub(crate) fn count_more(told: Record, clocks: u64, shown: u64, stored: u64) -> Record
    requires clocks_bound { told.clocks + clocks ≤ most }
    requires shown_bound { told.shown + shown ≤ most }
    requires stored_bound { told.stored + stored ≤ most }
    ensures { result ≡ more told clocks shown stored }
{
    Record {
        clocks: told.clocks + clocks,
        shown: told.shown + shown,
        stored: told.stored + stored,
        ..told
    }
}
