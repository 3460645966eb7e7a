// /HOLD. While it is low, moves of SCK and /CS are not seen, and only their levels are kept.
ghost use Rattle.std.specs.Prelude.{◌≡◌};
ghost use Rattle.pins.specs.Levels.{hold_high};

// The level of /HOLD; where it is low, with the level of /CS, whose moves are not seen then. No Option: a payload here costs
// every event more (docs/SPEED.md).
#[derive(Clone, Copy)]
pub enum Hold {
    High,
    LowCsLow,
    LowCsHigh,
}

// Whether /HOLD is high.
pub fn hold_high(hold: Hold) -> bool
    ensures { result ≡ hold_high hold }
{
    matches!(hold, Hold::High)
}
