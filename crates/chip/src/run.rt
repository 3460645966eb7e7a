// What the event call and the list call share: the checks of what is lent, and the loop over event codes. The loop alone calls
// `step`: a large function called at one place stays in the loop when it is compiled. Both read the part's row for themselves, so
// that they stay two functions and the checks take no room in the loop (docs/SPEED.md).
ghost use Rattle.std.specs.Prelude.{None, ◌≡◌, ◌≤◌, length};
ghost use Rattle.parts.specs.Figures.{figure_of};
ghost use Rattle.supply.specs.Power.{checked};
ghost use Rattle.chip.specs.Event.{lend_refusal, tried};
ghost use Rattle.chip.specs.List.{set_all_out, course};
ghost use Rattle.chip.specs.Loop.{course_of};

use parts::figures::{Figure, figure_of, takes_serial};
use pins::sound::sound_by;
use pins::state::{Moved, State};
use refusals::refusal::Refusal;
use select::notes::Note;
use step::step::{step, store};

// How far the codes were taken: the refusal that stopped them, the count of those accepted, the last one's note, and the state
// that they made.
#[derive(Clone, Copy)]
pub(crate) struct Ran {
    pub(crate) refusal: Option<Refusal>,
    pub(crate) count: usize,
    pub(crate) note: Note,
    pub(crate) state: State,
}

// The checks of a state and of what is lent with it, an array and a serial number.
#[tactic(auto, using(crate::proofs::EventLaws::lend_unsound, crate::proofs::EventLaws::lend_misfits, crate::proofs::EventLaws::lend_unnumbered, crate::proofs::EventLaws::lend_fine))]
pub(crate) fn check_lent(state: State, len: usize, serial: usize) -> Result<(), Refusal>
    ensures { result ≡ checked (lend_refusal state len serial) }
{
    let f = figure_of(u64::from(state.part));
    if !sound_by(f, state) {
        return Err(Refusal::Unsound);
    }
    if len != f.size {
        return Err(Refusal::ArrayLength);
    }
    if !takes_serial(f, serial) {
        return Err(Refusal::SerialLength);
    }
    Ok(())
}

// One event where nothing is refused of the state and what is lent with it: 5 is all that is left to check before the step.
fn attempt(
    f: Figure,
    state: State,
    array: &[u8],
    serial: &[u8],
    code: u64,
) -> Result<Moved, Refusal>
    requires parts_row { f ≡ figure_of state.part }
    requires nothing_refused { lend_refusal state (length array.now) (length serial.now) ≡ None }
    ensures { result ≡ tried f serial.now array.now state code }
{
    if 12 <= code {
        Err(Refusal::NoEvent)
    } else {
        step(f, state, array, serial, code as u8)
    }
}

// The codes one after the other, up to the first refusal, each one's level of SO at its own place. Nothing is refused of the state
// and what is lent with it before the first, so nothing is before any other: an event leads to a sound state of the same part, and
// what it stores keeps the array's length (document 02, Wish 10).
pub(crate) fn go(
    state: State,
    array: &mut [u8],
    serial: &[u8],
    codes: &[u64],
    levels: &mut [u8],
) -> Ran
    requires nothing_refused { lend_refusal state (length array.old) (length serial.now) ≡ None }
    requires codes_in_bounds { length codes.now ≤ length levels.old }
    ensures { course_of result array.new levels.new
        ≡ course serial.now (set_all_out None state array.old levels.old) codes.now }
{
    let f = figure_of(u64::from(state.part));
    let mut state = state;
    let mut note = Note::Nothing;
    for i in 0..codes.len() {
        match attempt(f, state, array, serial, codes[i]) {
            Ok(moved) => {
                note = moved.note;
                state = moved.state;
                store(array, note);
                levels[i] = u8::from(state.so());
            }
            Err(refusal) => {
                return Ran {
                    refusal: Some(refusal),
                    count: i,
                    note: Note::Nothing,
                    state,
                };
            }
        }
    }
    Ran {
        refusal: None,
        count: codes.len(),
        note,
        state,
    }
}
