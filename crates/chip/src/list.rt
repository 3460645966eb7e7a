// A whole list of events at once (document 02, Wish 1).
ghost use Rattle.std.specs.Prelude.{◌≡◌};
ghost use Rattle.supply.specs.Power.{checked};
ghost use Rattle.chip.specs.List.{list_refusal};
ghost use Rattle.chip.specs.Promises.{ListPromise};

use crate::run::{check_lent, go};
use pins::state::State;
use refusals::refusal::Refusal;

// The answer to a list: the refusal that stopped it, the count of events accepted, and the state that they made.
#[derive(Clone, Copy)]
pub struct Listed {
    pub refusal: Option<Refusal>,
    pub count: usize,
    pub state: State,
}

// The checks that come before the first event.
#[tactic(auto, unfolding(crate::specs::List::list_refusal))]
fn check_list(
    state: State,
    len: usize,
    serial: usize,
    codes: usize,
    levels: usize,
) -> Result<(), Refusal>
    ensures { result ≡ checked (list_refusal state len serial codes levels) }
{
    check_lent(state, len, serial)?;
    if levels < codes {
        return Err(Refusal::FewAnswers);
    }
    Ok(())
}

// The codes one after the other on the lent array, with the lent serial number. SO after each accepted event goes to the event's
// place of `levels`: 0, 1, or 2 for released.
pub fn events(
    state: State,
    array: &mut [u8],
    serial: &[u8],
    codes: &[u64],
    levels: &mut [u8],
) -> Listed
    ensures { ListPromise serial.now array.old state codes.now levels.old result
        array.new levels.new }
{
    match check_list(state, array.len(), serial.len(), codes.len(), levels.len()) {
        Ok(()) => {
            let ran = go(state, array, serial, codes, levels);
            Listed {
                refusal: ran.refusal,
                count: ran.count,
                state: ran.state,
            }
        }
        Err(refusal) => Listed {
            refusal: Some(refusal),
            count: 0,
            state,
        },
    }
}
