// One event on the board.
ghost use Rattle.std.specs.Prelude.{◌≡◌, ◌≤◌, ◌<◌, None, Some, cond, length, true};
ghost use Rattle.board.specs.Checks.{is_own};
ghost use Rattle.board.specs.Chips.{pieces, serials_together, slice, states, together};
ghost use Rattle.board.specs.Event.{every, at, moved, refusal_at};
ghost use Rattle.board.specs.Promises.{BoardPromise};
ghost use Rattle.board.specs.declared.so.BoardSo.TheVariants.{Released};

use crate::checks::{checks, is_own};
use crate::chips::{Board, lengths_of, together};
use crate::so::{BoardSo, board_so};
use chip::event::event as chip_event;
use pins::state::State;
use refusals::refusal::Refusal;

// The answer to an event on the board. "No note is given". The refusal stands beside the board: a refused event still gives one.
#[derive(Clone, Copy)]
pub struct BoardAnswer {
    pub refusal: Option<Refusal>,
    pub so: BoardSo,
    pub board: Board,
}

// "A shared line moves every chip": each its own state, its own piece of the slice and its own serial number. That the slices are
// as long as all pieces is said by two facts, here and below: a struct would give them up while a piece is lent.
fn move_every(chips: &mut [State], array: &mut [u8], serials: &[u8], code: u64)
    requires whole_slice { together chips.old ≡ length array.old }
    requires whole_serials { serials_together chips.old ≡ length serials.now }
    ensures chips_after { chips.new ≡ states (every code (pieces chips.old array.old serials.now)) }
    ensures array_after { array.new ≡ slice (every code (pieces chips.old array.old serials.now)) }
{
    let mut start = 0;
    let mut from = 0;
    for chip in chips {
        let own = lengths_of(*chip);
        let end = start + own.array;
        let to = from + own.serials;
        let answer = chip_event(*chip, &mut array[start..end], &serials[from..to], code);
        *chip = answer.state;
        start = end;
        from = to;
    }
}

// "an own line moves one chip and nothing of any other, bytes included": the chip may refuse.
fn move_one(
    chips: &mut [State],
    array: &mut [u8],
    serials: &[u8],
    chip: usize,
    code: u64,
) -> Option<Refusal>
    requires few { length chips.old ≤ 8 }
    requires there { chip < length chips.old }
    requires whole_slice { together chips.old ≡ length array.old }
    requires whole_serials { serials_together chips.old ≡ length serials.now }
    ensures refusal { result ≡ refusal_at chip code (pieces chips.old array.old serials.now) }
    ensures chips_after { chips.new ≡ states (at chip code (pieces chips.old array.old serials.now)) }
    ensures array_after { array.new ≡ slice (at chip code (pieces chips.old array.old serials.now)) }
{
    let state = chips[chip];
    let before = together(&chips[..chip]);
    let own = lengths_of(state);
    let start = before.array;
    let from = before.serials;
    let end = start + own.array;
    let to = from + own.serials;
    let answer = chip_event(state, &mut array[start..end], &serials[from..to], code);
    chips[chip] = answer.state;
    answer.refusal
}

// Moves the chips that the line reaches. The one that an own line moves may refuse.
fn move_chips(
    chips: &mut [State],
    array: &mut [u8],
    serials: &[u8],
    chip: usize,
    code: u64,
) -> Option<Refusal>
    requires few { length chips.old ≤ 8 }
    requires there { is_own code ≡ true → chip < length chips.old }
    requires whole_slice { together chips.old ≡ length array.old }
    requires whole_serials { serials_together chips.old ≡ length serials.now }
    ensures refusal { result ≡ cond (is_own code) (refusal_at chip code (pieces chips.old array.old serials.now)) None }
    ensures chips_after { chips.new ≡ states (moved chip code (pieces chips.old array.old serials.now)) }
    ensures array_after { array.new ≡ slice (moved chip code (pieces chips.old array.old serials.now)) }
{
    if is_own(code) {
        move_one(chips, array, serials, chip, code)
    } else {
        move_every(chips, array, serials, code);
        None
    }
}

// One event on the lent slice, with the lent serials. `chip` says whose line it is, counted from 0; at a shared line it says
// nothing.
pub fn event(board: Board, array: &mut [u8], serials: &[u8], chip: usize, code: u64) -> BoardAnswer
    ensures { BoardPromise serials.now array.old board chip code result array.new }
{
    let checked = checks(board, array.len(), serials.len(), chip, code);
    if let Err(refusal) = checked {
        return refused(refusal, board);
    }
    let count = board.count;
    let mut chips = board.chips;
    let refusal = move_chips(&mut chips[..count], array, serials, chip, code);
    if let Some(refusal) = refusal {
        return refused(refusal, board);
    }
    let so = board_so(&chips[..count]);
    let board = Board { count, chips };
    BoardAnswer { refusal, so, board }
}

// "a refused event changes no chip"; "SO reads released".
fn refused(refusal: Refusal, board: Board) -> BoardAnswer
    ensures { result ≡ record { refusal = Some refusal; so = Released; board = board } }
{
    BoardAnswer {
        refusal: Some(refusal),
        so: BoardSo::Released,
        board,
    }
}
