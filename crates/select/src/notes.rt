// What an answer says: the level of SO, and one note.
ghost use Rattle.std.specs.Prelude.{◌≡◌};
ghost use Rattle.select.specs.Fall.{line_level};
ghost use Rattle.select.specs.Notes.{level_number};

use parts::guards::Reason;
use stages::stage::Line;

#[derive(Clone, Copy)]
pub enum Level {
    Low,
    High,
    Released,
}

// A level that is driven.
impl From<Line> for Level {
    ghost from_gives = { λ line level. level ≡ line_level line };

    fn from(line: Line) -> Level {
        match line {
            Line::Down => Level::Low,
            Line::Up => Level::High,
        }
    }
}

// "0, 1, or 2 for released"
impl From<Level> for u8 {
    ghost from_gives = { λ level n. n ≡ level_number level };

    fn from(level: Level) -> u8 {
        match level {
            Level::Low => 0,
            Level::High => 1,
            Level::Released => 2,
        }
    }
}

#[derive(Clone, Copy)]
pub enum Note {
    Nothing,
    Latch(bool),
    Stored(usize, u8),
    HeldBack(usize, Reason),
    KeptSet(u8),
    KeptHeldBack(Reason),
    PowerLost,
}
