// The seen edges of /CS: the rise that closes a select, the fall that opens one.
ghost use Rattle.std.specs.Prelude.{◌≡◌};
ghost use Rattle.stages.specs.Close.{is_closed, is_asleep, end_of, drops, after_close, after_fall};

use crate::bits::NO_BITS;
use crate::stage::{Came, End, Stage};
use crate::wp::fall_wp;
use parts::figures::Figure;

// Whether no select is open.
pub fn is_closed(stage: Stage) -> bool
    ensures { result ≡ is_closed stage }
{
    matches!(stage, Stage::Closed | Stage::Asleep)
}

// Whether the chip sleeps.
pub fn is_asleep(stage: Stage) -> bool
    ensures { result ≡ is_asleep stage }
{
    matches!(stage, Stage::Asleep)
}

// What the close of a select does besides.
pub fn end_of(stage: Stage) -> End
    ensures { result ≡ end_of stage }
{
    match stage {
        Stage::Writing {
            came: Came::Bytes | Came::BytesLow,
            ..
        } => End::Drops,
        Stage::Over { end } => end,
        _ => End::Quiet,
    }
}

// Whether the close drops the latch: a WRITE or WRSR had a whole data byte.
pub fn drops(stage: Stage) -> bool
    ensures { result ≡ drops stage }
{
    matches!(end_of(stage), End::Drops)
}

// The stage after the close.
pub fn after_close(stage: Stage) -> Stage
    ensures { result ≡ after_close stage }
{
    match end_of(stage) {
        End::Quiet | End::Drops => Stage::Closed,
        End::Sleeps => Stage::Asleep,
    }
}

// The stage after a seen fall of /CS: an op-code is next; a chip that slept wakes, and nothing happens in this select.
#[tactic(auto, unfolding(crate::specs::Close::after_fall))]
pub fn after_fall(f: Figure, wp: bool, stage: Stage) -> Stage
    ensures { result ≡ after_fall f wp stage }
{
    if is_asleep(stage) {
        Stage::Over { end: End::Quiet }
    } else {
        Stage::Code {
            wp: fall_wp(f, wp),
            shift: NO_BITS,
        }
    }
}
