// /WP and the data byte under way (document 02, Wishes 2 and 3).
ghost use Rattle.std.specs.Prelude.{◌≡◌};
ghost use Rattle.stages.specs.Wp.{line_of, is_up, came_up, some_came, came_with, fall_wp, byte_wp, byte_came};

use crate::bits::NO_BITS;
use crate::stage::{Came, Line};
use parts::figures::Figure;

// A level as a stage remembers it.
impl From<bool> for Line {
    ghost from_gives = { λ level line. line ≡ line_of level };

    fn from(level: bool) -> Line {
        if level { Line::Up } else { Line::Down }
    }
}

// Whether a level is up.
pub fn is_up(line: Line) -> bool
    ensures { result ≡ is_up line }
{
    matches!(line, Line::Up)
}

// Whether the level that is remembered with what came is up.
pub fn came_up(came: Came) -> bool
    ensures { result ≡ came_up came }
{
    matches!(came, Came::NoByte | Came::Bytes)
}

// Whether a whole byte came.
pub fn some_came(came: Came) -> bool
    ensures { result ≡ some_came came }
{
    matches!(came, Came::Bytes | Came::BytesLow)
}

// What came, with this level.
fn came_with(came: Came, wp: bool) -> Came
    ensures { result ≡ came_with came wp }
{
    match (some_came(came), wp) {
        (false, true) => Came::NoByte,
        (false, false) => Came::NoByteLow,
        (true, true) => Came::Bytes,
        (true, false) => Came::BytesLow,
    }
}

// The level that is remembered at the fall of /CS: the pin's where the part reads it there, else up.
#[tactic(auto, unfolding(crate::specs::Wp::fall_wp))]
pub fn fall_wp(f: Figure, pin: bool) -> Line
    ensures { result ≡ fall_wp f pin }
{
    if f.wp_at_fall & !pin {
        Line::Down
    } else {
        Line::Up
    }
}

// The level that counts for WRSR's data byte: the pin's at the byte's first rise, from then on the one that was remembered; on a
// part that reads it at the fall of /CS, the one from there.
#[tactic(auto, unfolding(crate::specs::Wp::byte_wp))]
pub fn byte_wp(f: Figure, wp: Line, shift: u16, pin: bool) -> Line
    ensures { result ≡ byte_wp f wp shift pin }
{
    if f.wp_at_fall {
        return wp;
    }
    if shift == NO_BITS {
        Line::from(pin)
    } else {
        wp
    }
}

// The same for a WRITE's.
#[tactic(auto, unfolding(crate::specs::Wp::byte_came))]
pub fn byte_came(came: Came, shift: u16, pin: bool) -> Came
    ensures { result ≡ byte_came came shift pin }
{
    if shift == NO_BITS {
        came_with(came, pin)
    } else {
        came
    }
}
