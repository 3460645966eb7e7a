// Power-up, and a fresh array.
ghost use Rattle.std.specs.Prelude.{◌≡◌};
ghost use Rattle.parts.specs.Figures.{in_mask};
ghost use Rattle.supply.specs.Power.{power_refusal, power_up, fill_refusal, checked, fresh};
ghost use Rattle.supply.specs.Promises.{FillPromise};

use parts::figures::{figure_of, fits_part, is_part};
use pins::state::State;
use refusals::refusal::Refusal;

// Document 02, Wish 6: "A fresh array holds FF."
pub const FRESH: u8 = 0xFF;

// The answer to a power-up; a refused one gives the off state.
#[derive(Clone, Copy)]
pub struct Powered {
    pub refusal: Option<Refusal>,
    pub state: State,
}

// Whether the kept bits are under the part's mask.
pub fn in_mask(part: u64, kept: u64) -> bool
    ensures { result ≡ in_mask part kept }
{
    let mask = u64::from(figure_of(part).kept);
    kept & mask == kept
}

#[tactic(auto, unfolding(crate::specs::Power::fill_refusal))]
fn check_fill(part: u64, len: usize) -> Result<(), Refusal>
    ensures { result ≡ checked (fill_refusal part len) }
{
    if !is_part(part) {
        return Err(Refusal::NoPart);
    }
    if !fits_part(part, len) {
        return Err(Refusal::ArrayLength);
    }
    Ok(())
}

#[tactic(auto, unfolding(crate::specs::Power::power_refusal))]
fn check_power(part: u64, kept: u64, len: usize) -> Result<(), Refusal>
    ensures { result ≡ checked (power_refusal part kept len) }
{
    check_fill(part, len)?;
    if !in_mask(part, kept) {
        return Err(Refusal::KeptBits);
    }
    Ok(())
}

// Power-up of a part with its kept bits, over the array that is lent to it.
#[tactic(auto, unfolding(crate::specs::Power::power_up), using(crate::specs::PowerLaws::power_part, crate::specs::PowerLaws::power_kept, crate::specs::CheckedLaws::checked_none))]
pub fn power_up(part: u64, kept: u64, array: &[u8]) -> Powered
    ensures { result ≡ power_up part kept array.now }
{
    match check_power(part, kept, array.len()) {
        Ok(()) => Powered {
            refusal: None,
            state: State::at_rest(part as u8, kept as u8, true),
        },
        Err(refusal) => Powered {
            refusal: Some(refusal),
            state: State::at_rest(1, 0, false),
        },
    }
}

// A fresh array for a caller who "says so with a fill byte".
#[tactic(auto, unfolding(crate::specs::Power::filled))]
pub fn fill_with(part: u64, array: &mut [u8], byte: u8) -> Result<(), Refusal>
    ensures { FillPromise part byte array.old result array.new }
{
    check_fill(part, array.len())?;
    array.fill(byte);
    Ok(())
}

// "the old call means FF"
pub fn fill(part: u64, array: &mut [u8]) -> Result<(), Refusal>
    ensures { FillPromise part fresh array.old result array.new }
{
    fill_with(part, array, FRESH)
}
