// The core on plain numbers: a number is read at a place of a byte slice, and written at one.
ghost use Rattle.std.specs.Prelude.{◌≡◌, ◌+◌, ◌≤◌, length};
ghost use Rattle.trace.specs.Form.{form, scanned};
ghost use Rattle.trace.specs.Promises.{ReadPromise, WritePromise};

use crate::answer::{Read, Refused};
use refusals::refusal::Refusal;

// The figures of the format: the largest value, and the most groups of seven bits that a number has.
// `specs/Figures.antt` has them for the definitions.
pub const LARGEST: u64 = 268_435_455;

pub const GROUPS: usize = 4;

// The number at a place, before its size is judged.
#[derive(Clone, Copy)]
struct Whole {
    value: u64,
    next: usize,
}

// The number at `at`. The checks come in the order 10, (end), 8, 9.
#[tactic(auto, using(crate::specs::ScanLaws::reading_beyond, crate::specs::ScanLaws::reading_end, crate::specs::ScanLaws::reading_inside))]
pub fn read_at(s: &[u8], at: usize) -> Result<Read, Refused>
    ensures { ReadPromise s.now at result }
{
    if s.len() < at {
        return Err(Refused {
            refusal: Refusal::Beyond,
            at,
        });
    }
    if at == s.len() {
        return Ok(Read::End { at });
    }
    let Some(Whole { value, next }) = scan(s, at, GROUPS) else {
        return Err(Refused {
            refusal: Refusal::Malformed,
            at,
        });
    };
    if LARGEST < value {
        return Err(Refused {
            refusal: Refusal::TooLarge,
            at,
        });
    }
    Ok(Read::Number { value, next })
}

// The number at `at` of at most `room` groups. What is left after a byte with its top bit set is a
// number too, of one group fewer; where that is 0, the number without it is shorter. Nine groups
// are 63 bits, so the shift loses none.
fn scan(s: &[u8], at: usize, room: usize) -> Option<Whole>
    requires { room ≤ 9 }
    ensures { result ≡ scanned s.now at room }
{
    if room == 0 {
        return None;
    }
    let b = *s.get(at)?;
    let group = (b & 0x7F) as u64;
    let after = at + 1;
    if b < 0x80 {
        return Some(Whole {
            value: group,
            next: after,
        });
    }
    let Whole { value, next } = scan(s, after, room - 1)?;
    if value == 0 {
        return None;
    }
    Some(Whole {
        value: value << 7 | group,
        next,
    })
}

// Writes `value` at `at`. The checks come in the order 9, 10, 11, and all of them before a byte changes.
pub fn write_at(s: &mut [u8], at: usize, value: u64) -> Result<usize, Refused>
    ensures { WritePromise s.old at value result s.new }
{
    if value > LARGEST {
        return Err(Refused {
            refusal: Refusal::TooLarge,
            at,
        });
    }
    if at > s.len() {
        return Err(Refused {
            refusal: Refusal::Beyond,
            at,
        });
    }
    let width = width(value);
    if s.len() - at < width {
        return Err(Refused {
            refusal: Refusal::NoRoom,
            at,
        });
    }
    let next = at + width;
    put(&mut s[at..next], value);
    Ok(next)
}

// The number of bytes that the form of `value` takes: one for each seven bits begun.
fn width(value: u64) -> usize
    ensures { result ≡ length (form value) }
{
    value.max(1).ilog2() as usize / 7 + 1
}

// Stores the form of `value` in the bytes that it takes: the low group first, and the top bit set where more follow.
fn put(own: &mut [u8], value: u64)
    requires { length own.old ≡ length (form value) }
    ensures { own.new ≡ form value }
{
    let mut rest = value;
    for byte in own.iter_mut() {
        let group = (rest & 0x7F) as u8;
        rest >>= 7;
        *byte = if rest == 0 { group } else { group | 0x80 };
    }
}
