// The counting call: one event, with one counter of 32 bits for each row of the array.
ghost use Rattle.std.specs.Prelude.{◌≡◌, ◌<◌};
ghost use Rattle.supply.specs.Power.{checked};
ghost use Rattle.wear.specs.Count.{one_more, same_row, add_all, cycled, count_refusal};
ghost use Rattle.wear.specs.Promises.{CountPromise};

use chip::event::{Answer, event};
use parts::figures::{figure_of, takes_serial};
use pins::sound::sound_by;
use pins::state::State;
use refusals::refusal::Refusal;
use select::notes::{Level, Note};
use stages::last::last_of;

// "A full counter stays full."
fn one_more(count: u32) -> u32
    ensures { result ≡ one_more count }
{
    count.saturating_add(1)
}

// Whether the byte touched last before lay in the row of the byte touched last after, in rows of so many bytes. Before, 0 is none:
// so the state keeps it, in four bytes (docs/SPEED.md).
fn same_row(size: usize, before: u32, after: u32) -> bool
    requires size_nonzero { 0 < size }
    requires after_nonzero { 0 < after }
    ensures { result ≡ same_row size before after }
{
    if before == 0 {
        return false;
    }
    (before - 1) as usize / size == (after - 1) as usize / size
}

// One more for the row of the byte touched last, unless the byte touched last before lay in it. By index: what a slice ends as,
// `get_mut` does not say.
#[tactic(auto, using(crate::proofs::CountLaws::adds_none, crate::proofs::CountLaws::adds_same, crate::proofs::CountLaws::adds_one))]
fn add(counters: &mut [u32], size: usize, before: u32, after: u32)
    requires { 0 < size }
    ensures { counters.new ≡ add_all counters.old (cycled size before after) }
{
    if after == 0 {
        return;
    }
    if same_row(size, before, after) {
        return;
    }
    let row = (after - 1) as usize / size;
    if row < counters.len() {
        counters[row] = one_more(counters[row]);
    }
}

// The checks of a state and of what is lent with it, in the refusals' order.
fn check_counted(state: State, len: usize, serial: usize, counters: usize) -> Result<(), Refusal>
    ensures { result ≡ checked (count_refusal state len serial counters) }
{
    let f = figure_of(state.part as u64);
    if !sound_by(f, state) {
        return Err(Refusal::Unsound);
    }
    if f.row == 0 {
        return Err(Refusal::NoPart);
    }
    if len != f.size {
        return Err(Refusal::ArrayLength);
    }
    if !takes_serial(f, serial) {
        return Err(Refusal::SerialLength);
    }
    if counters != f.size / f.row {
        return Err(Refusal::CounterCount);
    }
    Ok(())
}

// One event on the lent array and the lent counters, with the lent serial number.
pub fn count_event(
    state: State,
    array: &mut [u8],
    serial: &[u8],
    counters: &mut [u32],
    code: u64,
) -> Answer
    ensures { CountPromise serial.now array.old counters.old state code result
        array.new counters.new }
{
    if let Err(refusal) = check_counted(state, array.len(), serial.len(), counters.len()) {
        return Answer {
            refusal: Some(refusal),
            so: Level::Released,
            note: Note::Nothing,
            state,
        };
    }
    let answer = event(state, array, serial, code);
    let size = figure_of(state.part as u64).row;
    let before = last_of(state.stage);
    let after = last_of(answer.state.stage);
    add(counters, size, before, after);
    answer
}
