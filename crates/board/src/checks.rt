// The refusals that are found before any chip moves.
ghost use Rattle.std.specs.Prelude.{◌≡◌};
ghost use Rattle.board.specs.Checks.{is_own, no_board, checks};
ghost use Rattle.supply.specs.Power.{checked};

use crate::chips::{Board, MOST, together};
use pins::sound::sound;
use refusals::refusal::Refusal;

// Whether the code is one of a chip's own lines: /CS or /HOLD.
#[tactic(auto, unfolding(crate::specs::Checks::is_own))]
pub(crate) fn is_own(code: u64) -> bool
    ensures { result ≡ is_own code }
{
    let pin = code / 2;
    (pin == 0) | (pin == 3)
}

// Whether there are no chips or over eight.
#[tactic(auto, unfolding(crate::specs::Checks::no_board))]
pub(crate) fn no_board(count: usize) -> bool
    ensures { result ≡ no_board count }
{
    (count == 0) | (MOST < count)
}

// The refusals 13, 14, 4, 2, 15 and 5, in this order.
pub(crate) fn checks(
    board: Board,
    len: usize,
    serials: usize,
    chip: usize,
    code: u64,
) -> Result<(), Refusal>
    ensures { result ≡ checked (checks board len serials chip code) }
{
    let count = board.count;
    if no_board(count) {
        return Err(Refusal::ChipCount);
    }
    if is_own(code) & (count <= chip) {
        return Err(Refusal::NoChip);
    }
    let chips = &board.chips[..count];
    if !chips.iter().all(|chip| sound(*chip)) {
        return Err(Refusal::Unsound);
    }
    let whole = together(chips);
    if len != whole.array {
        return Err(Refusal::ArrayLength);
    }
    if serials != whole.serials {
        return Err(Refusal::SerialLength);
    }
    if 12 <= code {
        return Err(Refusal::NoEvent);
    }
    Ok(())
}
