// The board's SO.
ghost use Rattle.std.specs.Prelude.{◌≡◌};
ghost use Rattle.board.specs.So.{board_so, so_number};
ghost use Rattle.board.specs.Loop.{driven_by, joined};

use pins::state::State;
use select::notes::Level;

// "released, the one driver's level, or "fight" where two or more drive"
#[derive(Clone, Copy)]
pub enum BoardSo {
    Low,
    High,
    Released,
    Fight,
}

// "0, 1, or 2 for released", and 3 for a fight.
impl From<BoardSo> for u8 {
    ghost from_gives = { λ so n. n ≡ so_number so };

    fn from(so: BoardSo) -> u8 {
        match so {
            BoardSo::Low => 0,
            BoardSo::High => 1,
            BoardSo::Released => 2,
            BoardSo::Fight => 3,
        }
    }
}

// What the line is once one more chip drives it.
fn driven(so: BoardSo, own: BoardSo) -> BoardSo
    ensures { result ≡ driven_by so own }
{
    match so {
        BoardSo::Released => own,
        BoardSo::Low | BoardSo::High | BoardSo::Fight => BoardSo::Fight,
    }
}

// What it is once one more chip is on it.
fn joined(so: BoardSo, level: Level) -> BoardSo
    ensures { result ≡ joined so level }
{
    match level {
        Level::Low => driven(so, BoardSo::Low),
        Level::High => driven(so, BoardSo::High),
        Level::Released => so,
    }
}

// What it is with all of them on it.
pub(crate) fn board_so(chips: &[State]) -> BoardSo
    ensures { result ≡ board_so chips.now }
{
    chips
        .iter()
        .fold(BoardSo::Released, |so, chip| joined(so, chip.so()))
}
