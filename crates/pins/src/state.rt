// The chip's state. It goes in by value and comes back by value.
ghost use Rattle.std.specs.Prelude.{◌≡◌};
ghost use Rattle.pins.specs.Levels.{at_rest, cs_level, so_level};

use crate::hold::Hold;
use select::fall::stage_level;
use select::notes::{Level, Note};
use stages::close::is_closed;
use stages::stage::{Line, Stage};

// With /HOLD high the level of /CS is high exactly where no select is open, so it has no field of its own. What SO
// shows is in the stage. SI and /WP are only carried along by most events, so they are no bools (docs/SPEED.md).
#[derive(Clone, Copy)]
pub struct State {
    pub part: u8,
    pub kept: u8,
    pub power: bool,
    pub sck: bool,
    pub si: Line,
    pub wp: Line,
    pub latch: bool,
    pub hold: Hold,
    pub stage: Stage,
}

// A state with the note of what led to it.
#[derive(Clone, Copy)]
pub struct Moved {
    pub state: State,
    pub note: Note,
}

impl State {
    // The state at power-up; with no power, the off state.
    pub fn at_rest(part: u8, kept: u8, power: bool) -> State
        ensures { result ≡ at_rest part kept power }
    {
        State {
            part,
            kept,
            power,
            sck: false,
            si: Line::Down,
            wp: Line::Up,
            latch: false,
            hold: Hold::High,
            stage: Stage::Closed,
        }
    }

    // The level of /CS.
    pub fn cs(self) -> bool
        ensures { result ≡ cs_level self }
    {
        let hold = self.hold;
        let stage = self.stage;
        match hold {
            Hold::High => is_closed(stage),
            Hold::LowCsLow => false,
            Hold::LowCsHigh => true,
        }
    }

    // The level of SO.
    pub fn so(self) -> Level
        ensures { result ≡ so_level self }
    {
        let hold = self.hold;
        let stage = self.stage;
        match hold {
            Hold::High => stage_level(stage),
            Hold::LowCsLow | Hold::LowCsHigh => Level::Released,
        }
    }
}
