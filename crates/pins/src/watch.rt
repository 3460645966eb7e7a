// What a bench sees of a state besides the answers: whether a select is open, and whether an event is a seen rise.
ghost use Rattle.std.specs.Prelude.{◌≡◌};
ghost use Rattle.pins.specs.Watch.{is_open, sees_rise};

use crate::hold::hold_high;
use crate::state::State;
use stages::close::is_closed;

// Whether a select is open.
#[tactic(auto, unfolding(crate::specs::Watch::is_open))]
pub fn is_open(s: State) -> bool
    ensures { result ≡ is_open s }
{
    let stage = s.stage;
    !is_closed(stage)
}

// Whether this event is a seen rise of SCK in an open select. By its code, which may be no event's.
#[tactic(auto, unfolding(crate::specs::Watch::sees_rise))]
pub fn sees_rise(s: State, code: u64) -> bool
    ensures { result ≡ sees_rise s code }
{
    let hold = s.hold;
    s.power & hold_high(hold) & is_open(s) & !s.sck & (code == 3)
}
