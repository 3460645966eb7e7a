// Pulses that one sum answers.
ghost use Rattle.std.specs.Prelude.{◌≡◌, ◌≤◌, length};
ghost use Rattle.pulses.specs.Pulse.{Skips};

use crate::read::skip_read;
use crate::ready::Ready;
use crate::sums::{Skipped, count_more, counts_on, is_idle, is_steady, nothing};
use crate::write::skip_write;
use stages::stage::Stage;
use turns::stand::Stand;

// In an open select.
fn skip_open(ready: Ready, array: &mut [u8]) -> Skipped
    requires { length array.old ≡ ready.len }
    ensures left_le_pulses { result.left ≤ ready.pulses }
    ensures skips { Skips ready.stand array.old ready.pulses result array.new }
{
    let stand = ready.stand;
    let pulses = ready.pulses;
    match stand.chip.stage {
        Stage::Over { .. } => {
            let told = stand.told;
            let told = count_more(told, pulses, 0, 0);
            let stand = Stand { told, ..stand };
            Skipped { stand, left: 0 }
        }
        Stage::ArrayOut { level, bit, at } => skip_read(ready, array, level, bit, at),
        Stage::Writing {
            came,
            shift,
            last,
            at,
        } => skip_write(ready, array, came, shift, last, at),
        _ => nothing(stand, pulses),
    }
}

// Some of the pulses, or none of them.
pub(crate) fn skip(stand: Stand, array: &mut [u8], pulses: u64) -> Skipped
    ensures left_le_pulses { result.left ≤ pulses }
    ensures skips { Skips stand array.old pulses result array.new }
{
    let chip = stand.chip;
    let told = stand.told;
    if !is_steady(chip, array.len()) {
        return nothing(stand, pulses);
    }
    if is_idle(chip) {
        return Skipped { stand, left: 0 };
    }
    if !counts_on(told, pulses) {
        return nothing(stand, pulses);
    }
    let ready = Ready {
        stand,
        len: array.len(),
        pulses,
    };
    skip_open(ready, array)
}
