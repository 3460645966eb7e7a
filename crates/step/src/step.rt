// The step of one event: what it does where the checks 4, 2, 15 and 5 let it through.
ghost use Rattle.std.specs.Prelude.{true, false, [], ◌≡◌, ◌/◌, ◌%◌, eqb};
ghost use Rattle.step.specs.Step.{cs_to, sck_to, cs_stayed, hold_up, hold_to, vdd_to, live, dark, step, written};

use parts::figures::Figure;
use pins::hold::hold_high;
use pins::state::{Moved, State};
use refusals::refusal::Refusal;
use select::notes::Note;
use stages::close::is_closed;

// Each pin set to a level. "Setting a pin to the level it has is accepted and has no effect."
fn cs_to(state: State, f: Figure, level: bool) -> Moved
    ensures { result ≡ cs_to f state level }
{
    if level == state.cs() {
        state.silent()
    } else if level {
        state.cs_rise()
    } else {
        state.cs_fall(f)
    }
}

fn sck_low(state: State, f: Figure, array: &[u8], serial: &[u8]) -> Moved
    ensures { result ≡ sck_to f serial.now array.now state false }
{
    if state.sck {
        state.sck_fall(f, array, serial)
    } else {
        state.silent()
    }
}

// A rise reads nothing that is lent.
fn sck_high(state: State, f: Figure) -> Moved
    ensures { result ≡ sck_to f [] [] state true }
{
    if state.sck {
        state.silent()
    } else {
        state.sck_rise(f)
    }
}

// Whether /CS has the level that it had when /HOLD fell.
#[tactic(auto, unfolding(crate::specs::Step::cs_stayed))]
fn cs_stayed(state: State) -> bool
    ensures { result ≡ cs_stayed state }
{
    let stage = state.stage;
    let cs = state.cs();
    if is_closed(stage) { cs } else { !cs }
}

// /HOLD, low so far, set high.
fn hold_up(state: State) -> Result<Moved, Refusal>
    ensures { result ≡ hold_up state }
{
    if state.sck {
        Err(Refusal::HoldWithSck)
    } else if cs_stayed(state) {
        Ok(state.hold_rise())
    } else {
        Err(Refusal::HoldWithCs)
    }
}

fn hold_to(state: State, level: bool) -> Result<Moved, Refusal>
    ensures { result ≡ hold_to state level }
{
    let off = hold_high(state.hold);
    if level == off {
        Ok(state.silent())
    } else if level {
        hold_up(state)
    } else if state.sck {
        Err(Refusal::HoldWithSck)
    } else {
        Ok(state.hold_fall())
    }
}

fn vdd_to(state: State, level: bool) -> Moved
    ensures { result ≡ vdd_to state level }
{
    if level {
        state.silent()
    } else {
        state.vdd_fall()
    }
}

// An event with power on. By the code and not by pin and level, so that each edge of SCK has one way (docs/SPEED.md).
#[tactic(auto, unfolding(crate::specs::Step::live))]
fn live(f: Figure, state: State, array: &[u8], serial: &[u8], code: u8) -> Result<Moved, Refusal>
    ensures { result ≡ live f serial.now array.now state (code / 2) (eqb (code % 2) 1) }
{
    match code {
        0 | 1 => Ok(cs_to(state, f, code == 1)),
        2 => Ok(sck_low(state, f, array, serial)),
        3 => Ok(sck_high(state, f)),
        4 | 5 => Ok(state.si_to(code == 5)),
        6 | 7 => hold_to(state, code == 7),
        8 | 9 => Ok(state.wp_to(code == 9)),
        _ => Ok(vdd_to(state, code % 2 == 1)),
    }
}

// An event with power off.
fn dark(state: State, code: u8) -> Moved
    ensures { Ok result ≡ dark state code }
{
    if code == 11 {
        state.vdd_rise()
    } else {
        state.silent()
    }
}

// An event that passed the checks 4, 2, 15 and 5. It is pure, and called at one place, the loop over events.
#[tactic(auto, unfolding(crate::specs::Step::step))]
pub fn step(
    f: Figure,
    state: State,
    array: &[u8],
    serial: &[u8],
    code: u8,
) -> Result<Moved, Refusal>
    ensures { result ≡ step f serial.now array.now state code }
{
    if state.power {
        live(f, state, array, serial, code)
    } else {
        Ok(dark(state, code))
    }
}

// The byte that a note says is stored.
#[tactic(auto, unfolding(crate::specs::Step::written))]
pub fn store(array: &mut [u8], note: Note)
    ensures { array.new ≡ written note array.old }
{
    if let Note::Stored(at, byte) = note {
        if at < array.len() {
            array[at] = byte;
        }
    }
}
