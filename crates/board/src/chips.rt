// The board's chips, and the pieces of the lent slices that are theirs: their arrays, and their serial numbers.
ghost use Rattle.std.specs.Prelude.{◌≡◌, ◌≤◌, length};
ghost use Rattle.board.specs.Chips.{piece_length, serial_length, serials_together, together};

use parts::figures::figure_of;
use pins::state::State;

// "up to eight chips"
pub const MOST: usize = 8;

// The chips' states, in chip order. It goes in by value and comes back by value, so a count beside an array: there is no heap.
// 13 is given for a count of nine, so no invariant holds it.
#[derive(Clone, Copy)]
pub struct Board {
    // How many chips there are; the places behind them mean nothing.
    pub count: usize,
    pub chips: [State; MOST],
}

// How many bytes are a chip's, or those of chips together: of the slice, and of the serials.
#[derive(Clone, Copy)]
pub(crate) struct Lengths {
    pub(crate) array: usize,
    pub(crate) serials: usize,
}

// A part's, by its number.
pub(crate) fn part_lengths(part: u64) -> Lengths
    ensures array { result.array ≡ piece_length part }
    ensures serials { result.serials ≡ serial_length part }
{
    let f = figure_of(part);
    Lengths {
        array: f.size,
        serials: f.serial,
    }
}

// Those of a chip, by its state.
pub(crate) fn lengths_of(state: State) -> Lengths
    ensures array { result.array ≡ piece_length state.part }
    ensures serials { result.serials ≡ serial_length state.part }
{
    part_lengths(u64::from(state.part))
}

// How long the pieces of these chips are together.
#[tactic(auto, unfolding(crate::specs::Chips::sum))]
pub(crate) fn together(chips: &[State]) -> Lengths
    requires { length chips.now ≤ 8 }
    ensures array { result.array ≡ together chips.now }
    ensures serials { result.serials ≡ serials_together chips.now }
{
    let mut array = 0;
    let mut serials = 0;
    for &chip in chips {
        let own = lengths_of(chip);
        array += own.array;
        serials += own.serials;
    }
    Lengths { array, serials }
}
