// Whole bytes of a WRITE. SI stands, so that each of them is 00 or FF, and once the array is gone round no more of them changes it.
ghost use Rattle.std.specs.Prelude.{◌≡◌, ◌+◌, ◌%◌, ◌<◌, ◌≤◌, length};
ghost use Rattle.stages.specs.Wp.{is_up};
ghost use Rattle.stages.specs.declared.stage.Stage.TheVariants.{Writing};
ghost use Rattle.pulses.specs.Pulse.{Skips};
ghost use Rattle.pulses.specs.Sums.{still_byte, store_limit, fill_bytes, before, last_stored};

use crate::ready::Ready;
use crate::sums::{Skipped, count_more, nothing};
use parts::figures::figure_of;
use parts::guards::first_protected;
use pins::state::State;
use stages::bits::NO_BITS;
use stages::stage::{Came, Line, Stage};
use stages::wp::is_up;
use turns::stand::Stand;

// The byte that eight clocks with SI at one level give.
fn still_byte(si: Line) -> u8
    ensures { result ≡ still_byte (is_up si) }
{
    match si {
        Line::Down => 0,
        Line::Up => 0xFF,
    }
}

// "Who may write": the addresses below this may be stored to.
#[tactic(auto, unfolding(crate::specs::Sums::allowed))]
fn store_limit(chip: State) -> usize
    ensures { result ≡ store_limit chip }
{
    let f = figure_of(chip.part as u64);
    let wp = chip.wp;
    if !chip.latch {
        return 0;
    }
    if f.guards_array & !is_up(wp) {
        return 0;
    }
    first_protected(f, chip.kept)
}

// An array's size, and the address below which bytes may be stored to.
#[derive(Clone, Copy)]
struct Room {
    size: u64,
    limit: u64,
    ghost some: { 0 < size },
    ghost inside: { limit ≤ size },
}

impl Room {
    // How many bytes are stored from place 0 up to a place, which is counted on past the array's size.
    #[tactic(auto, unfolding(crate::specs::Sums::before))]
    fn stored_before(self, place: u64) -> u64
        ensures { result ≡ before self.size self.limit place }
    {
        place / self.size * self.limit + (place % self.size).min(self.limit)
    }
}

// The byte stored last, its address and one: `end` is the address after all the bytes.
fn last_stored(limit: usize, stored: u64, end: usize, last: u32) -> u32
    requires { limit ≤ 0xFFFFFFFF }
    ensures { result ≡ last_stored limit stored end last }
{
    if stored == 0 {
        return last;
    }
    if (0 < end) & (end < limit) {
        end as u32
    } else {
        limit as u32
    }
}

// "then steps the address, rolling over". By a test: with a division for each byte long runs took four times the time (docs/LOOK-BACK.md).
fn next(at: usize, size: usize) -> usize
    requires { at < size }
    ensures { result ≡ (at + 1) % size }
{
    if size <= at + 1 { 0 } else { at + 1 }
}

// Bytes of one value from an address on, round the array.
fn fill(array: &mut [u8], limit: usize, byte: u8, start: usize, bytes: u64)
    requires { start < length array.old }
    ensures { array.new ≡ fill_bytes (length array.old) limit byte bytes start array.old }
{
    let mut at = start;
    for _ in 0..bytes {
        if at < limit {
            array[at] = byte;
        }
        at = next(at, array.len());
    }
}

// Whole bytes of a WRITE, from a byte's border on.
pub(crate) fn skip_write(
    ready: Ready,
    array: &mut [u8],
    came: Came,
    shift: u16,
    last: u32,
    at: usize,
) -> Skipped
    requires own_array { length array.old ≡ ready.len }
    requires in_stage { ready.stand.chip.stage ≡ Writing came shift last at }
    ensures left_le_pulses { result.left ≤ ready.pulses }
    ensures skips { Skips ready.stand array.old ready.pulses result array.new }
{
    let stand = ready.stand;
    let pulses = ready.pulses;
    let chip = stand.chip;
    let told = stand.told;
    let bytes = pulses / 8;
    if shift != NO_BITS {
        return nothing(stand, pulses);
    }
    if bytes == 0 {
        return nothing(stand, pulses);
    }
    let limit = store_limit(chip);
    let size = array.len();
    let room = Room {
        size: size as u64,
        limit: limit as u64,
    };
    let start = at as u64;
    let stored = room.stored_before(start + bytes) - room.stored_before(start);
    let end = (at + bytes as usize) % size;
    // Past a round of the array no more bytes change it.
    fill(array, limit, still_byte(chip.si), at, room.size.min(bytes));
    let stage = Stage::Writing {
        came: Came::Bytes,
        shift: NO_BITS,
        last: last_stored(limit, stored, end, last),
        at: end,
    };
    Skipped {
        stand: Stand {
            chip: State { stage, ..chip },
            selects: stand.selects,
            told: count_more(told, bytes * 8, 0, stored),
        },
        left: pulses - bytes * 8,
    }
}
