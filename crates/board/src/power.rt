// The board's power-up.
ghost use Rattle.std.specs.Prelude.{◌≡◌, ◌≤◌, ◌++◌, length, drop};
ghost use Rattle.supply.specs.Power.{checked};
ghost use Rattle.board.specs.Power.{together_asked, power_refusal, powered, power_up, spare};

use crate::checks::no_board;
use crate::chips::{Board, MOST, part_lengths};
use parts::figures::is_part;
use pins::state::State;
use refusals::refusal::Refusal;
use supply::power::{in_mask, power_up as chip_power_up};

// A chip that is asked for: its part and its kept bits.
#[derive(Clone, Copy)]
pub struct Asked {
    pub part: u64,
    pub kept: u64,
}

// The chips that are asked for, in chip order. A count beside an array, as in `Board`.
#[derive(Clone, Copy)]
pub struct Plan {
    // How many there are; the places behind them mean nothing.
    pub count: usize,
    pub chips: [Asked; MOST],
}

// The refusal stands beside the board: a refused power-up still gives one.
#[derive(Clone, Copy)]
pub struct PoweredBoard {
    pub refusal: Option<Refusal>,
    pub board: Board,
}

// The places with no chip: what a refused power-up returns.
fn spare() -> [State; MOST]
    ensures { result ≡ spare }
{
    [State::at_rest(1, 0, false); MOST]
}

// How long the pieces of the slice are together.
fn together_asked(chips: &[Asked]) -> usize
    requires { length chips.now ≤ 8 }
    ensures { result ≡ together_asked chips.now }
{
    chips
        .iter()
        .map(|asked| part_lengths(asked.part).array)
        .sum()
}

// The refusals 13, 1, 2 and 3, in this order.
fn check_power(plan: Plan, len: usize) -> Result<(), Refusal>
    ensures { result ≡ checked (power_refusal plan len) }
{
    let count = plan.count;
    if no_board(count) {
        return Err(Refusal::ChipCount);
    }
    let chips = &plan.chips[..count];
    if !chips.iter().all(|asked| is_part(asked.part)) {
        return Err(Refusal::NoPart);
    }
    if len != together_asked(chips) {
        return Err(Refusal::ArrayLength);
    }
    if !chips.iter().all(|asked| in_mask(asked.part, asked.kept)) {
        return Err(Refusal::KeptBits);
    }
    Ok(())
}

// Each chip's own power-up, over its own piece of the slice.
fn power_each(asked: &[Asked], array: &[u8]) -> [State; MOST]
    requires few { length asked.now ≤ 8 }
    requires whole_slice { together_asked asked.now ≡ length array.now }
    ensures { result ≡ powered asked.now array.now ++ drop (length asked.now) spare }
{
    let mut chips = spare();
    let mut start = 0;
    for (i, one) in asked.iter().enumerate() {
        let end = start + part_lengths(one.part).array;
        chips[i] = chip_power_up(one.part, one.kept, &array[start..end]).state;
        start = end;
    }
    chips
}

// Power-up of the board's chips with their kept bits, over the slice that is lent to them.
#[tactic(auto, unfolding(crate::specs::Power::power_up))]
pub fn power_up(plan: Plan, array: &[u8]) -> PoweredBoard
    ensures { result ≡ power_up plan array.now }
{
    match check_power(plan, array.len()) {
        Ok(()) => {
            let count = plan.count;
            let chips = power_each(&plan.chips[..count], array);
            PoweredBoard {
                refusal: None,
                board: Board { count, chips },
            }
        }
        Err(refusal) => PoweredBoard {
            refusal: Some(refusal),
            board: Board {
                count: 0,
                chips: spare(),
            },
        },
    }
}
