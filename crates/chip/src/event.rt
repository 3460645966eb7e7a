// One event.
ghost use Rattle.std.specs.Prelude.{Err, ◌≡◌};
ghost use Rattle.chip.specs.Event.{answer_of};
ghost use Rattle.chip.specs.Loop.{last_step};
ghost use Rattle.chip.specs.Promises.{EventPromise};

use crate::run::{Ran, check_lent, go};
use pins::state::State;
use refusals::refusal::Refusal;
use select::notes::{Level, Note};

// The answer to an event.
#[derive(Clone, Copy)]
pub struct Answer {
    pub refusal: Option<Refusal>,
    pub so: Level,
    pub note: Note,
    pub state: State,
}

// "Any other refusal returns its number with the state given; SO reads released, the note is nothing."
fn refused(refusal: Refusal, state: State) -> Answer
    ensures { result ≡ answer_of state (Err refusal) }
{
    Answer {
        refusal: Some(refusal),
        so: Level::Released,
        note: Note::Nothing,
        state,
    }
}

// The answer to the one event of a list.
fn answer_of(ran: Ran) -> Answer
    ensures { result ≡ answer_of ran.state (last_step ran) }
{
    match ran.refusal {
        None => Answer {
            refusal: None,
            so: ran.state.so(),
            note: ran.note,
            state: ran.state,
        },
        Some(refusal) => refused(refusal, ran.state),
    }
}

// One event on the lent array, with the lent serial number: a list of one code.
pub fn event(state: State, array: &mut [u8], serial: &[u8], code: u64) -> Answer
    ensures { EventPromise serial.now array.old state code result array.new }
{
    match check_lent(state, array.len(), serial.len()) {
        Ok(()) => answer_of(go(state, array, serial, &[code], &mut [0])),
        Err(refusal) => refused(refusal, state),
    }
}
