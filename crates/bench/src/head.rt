// The two numbers that lead a trace.
ghost use Rattle.std.specs.Prelude.{◌≡◌};
ghost use Rattle.bench.specs.Head.{no_part, stopped, leading, head_of};

use refusals::refusal::Refusal;
use trace::answer::{Read, Refused};
use trace::items::LAST_BYTE;
use trace::reader::number_at;

// A leading number with the place after it.
#[derive(Clone, Copy)]
pub struct Lead {
    pub value: u64,
    pub next: usize,
}

// Both numbers with the place of the first item.
#[derive(Clone, Copy)]
pub struct Head {
    pub part: u64,
    pub kept: u64,
    pub items: usize,
}

// Why there are no two such numbers: the refusal. Where it is the second number's, the part's number too and the place where the
// reading stopped; else both are 0.
#[derive(Clone, Copy, Debug, PartialEq, Eq)]
pub struct NoHead {
    pub refusal: Refusal,
    pub part: u64,
    pub at: usize,
}

// The part's number itself is refused: nothing else is told.
impl From<Refused> for NoHead {
    ghost from_gives = { λ refused none. none ≡ no_part refused };

    fn from(refused: Refused) -> NoHead {
        NoHead {
            refusal: refused.refusal,
            part: 0,
            at: 0,
        }
    }
}

// A number that leads no trace: its refusal, and the place where the reading stopped.
fn stopped(refusal: Refusal, at: usize) -> Result<Lead, Refused>
    ensures { result ≡ stopped refusal at }
{
    Err(Refused { refusal, at })
}

// The number at `at`; "end" in place of it is refusal 8, and a number above 267 is refusal 9.
fn lead_at(trace: &[u8], at: usize) -> Result<Lead, Refused>
    ensures { result ≡ leading trace.now at }
{
    match number_at(trace, at) {
        Ok(Read::Number { value, next }) => if LAST_BYTE < value {
            stopped(Refusal::TooLarge, next)
        } else {
            Ok(Lead { value, next })
        },
        Ok(Read::End { at }) => stopped(Refusal::Malformed, at),
        Err(refused) => Err(refused),
    }
}

// The part's number, then the kept bits'. The first one's refusal comes first.
#[tactic(auto, unfolding(crate::specs::Head::head_of))]
pub fn head_of(trace: &[u8]) -> Result<Head, NoHead>
    ensures { result ≡ head_of trace.now }
{
    let part = lead_at(trace, 0)?;
    match lead_at(trace, part.next) {
        Ok(kept) => Ok(Head {
            part: part.value,
            kept: kept.value,
            items: kept.next,
        }),
        Err(refused) => Err(NoHead {
            refusal: refused.refusal,
            part: part.value,
            at: refused.at,
        }),
    }
}
