// Whole bytes of a READ.
ghost use Rattle.std.specs.Prelude.{◌≡◌, ◌≤◌, length};
ghost use Rattle.stages.specs.declared.stage.Stage.TheVariants.{ArrayOut};
ghost use Rattle.pulses.specs.Pulse.{Skips};

use crate::ready::Ready;
use crate::sums::{Skipped, count_more, nothing};
use parts::figures::figure_of;
use pins::state::State;
use report::record::SHOWN;
use select::fall::fall;
use stages::bits::NO_BITS;
use stages::stage::{Line, Stage, What};
use turns::stand::Stand;
use turns::turn::REPLAY_SERIAL;

// Whole bytes of a READ, past those that are told.
pub(crate) fn skip_read(ready: Ready, array: &[u8], level: Line, bit: u16, at: usize) -> Skipped
    requires own_array { length array.now ≡ ready.len }
    requires in_stage { ready.stand.chip.stage ≡ ArrayOut level bit at }
    ensures left_le_pulses { result.left ≤ ready.pulses }
    ensures skips { Skips ready.stand array.now ready.pulses result array.now }
{
    let stand = ready.stand;
    let pulses = ready.pulses;
    let told = stand.told;
    let bytes = pulses / 8;
    if bit != 7 {
        return nothing(stand, pulses);
    }
    if told.sample != NO_BITS {
        return nothing(stand, pulses);
    }
    if told.shown < SHOWN as u64 {
        return nothing(stand, pulses);
    }
    if bytes == 0 {
        return nothing(stand, pulses);
    }
    // So many bytes were shown, and bit 7 of the next one stands on SO.
    let chip = stand.chip;
    let next = Stage::Ready {
        what: What::Array,
        at: (at + bytes as usize) % array.len(),
    };
    let stage = fall(figure_of(chip.part as u64), array, &REPLAY_SERIAL, 0, next);
    Skipped {
        stand: Stand {
            chip: State { stage, ..chip },
            selects: stand.selects,
            told: count_more(told, bytes * 8, bytes, 0),
        },
        left: pulses - bytes * 8,
    }
}
