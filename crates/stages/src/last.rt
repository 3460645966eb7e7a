// The byte of the array that a select touched last (document 02, Wish 9).
ghost use Rattle.std.specs.Prelude.{◌≡◌};
ghost use Rattle.stages.specs.Last.{mark, last_by, last_of};

use crate::stage::Stage;
use parts::guards::Reason;

// An address as the byte touched last has it, in four bytes: one more, since 0 is none.
fn mark(at: usize) -> u32
    ensures { result ≡ mark at }
{
    if at < 0xFFFF_FFFF { at as u32 + 1 } else { 0 }
}

// After a data byte of a WRITE: the byte itself where it is stored; one that is held back touches nothing.
pub fn last_by(last: u32, at: usize, verdict: Result<(), Reason>) -> u32
    ensures { result ≡ last_by last at verdict }
{
    match verdict {
        Ok(()) => mark(at),
        Err(_) => last,
    }
}

// The byte that the select touched last. A READ or FSTRD needs no place for it: it is the byte that is shown.
pub fn last_of(stage: Stage) -> u32
    ensures { result ≡ last_of stage }
{
    match stage {
        Stage::ArrayOut { at, .. } => mark(at),
        Stage::Writing { last, .. } => last,
        _ => 0,
    }
}
