// The address that a header carries, and how it steps.
ghost use Rattle.std.specs.Prelude.{◌≡◌};
ghost use Rattle.stages.specs.Address.{code_page, after_code, upper_page, after_address, next_address};

use crate::bits::NO_BITS;
use crate::stage::{Came, Purpose, Stage, What};
use parts::figures::Figure;

// A byte as a page's number.
pub fn widen(x: u8) -> u32
    ensures { result ≡ x }
{
    u32::from(x)
}

// The top address bit, where the op-code carries it.
fn code_page(f: Figure, code: u8) -> u32
    ensures { result ≡ code_page f code }
{
    if code & f.top == 0 { 0 } else { 1 }
}

// The stage after the op-code of a READ or WRITE.
#[tactic(auto, unfolding(crate::specs::Address::after_code))]
pub fn header(f: Figure, purpose: Purpose, code: u8) -> Stage
    ensures { result ≡ after_code f purpose code }
{
    let shift = NO_BITS;
    let page = code_page(f, code);
    if f.address_bytes == 2 {
        Stage::Upper { purpose, shift }
    } else {
        Stage::Lower {
            purpose,
            shift,
            page,
        }
    }
}

// The upper address byte less the bits that are ignored.
pub fn upper_page(f: Figure, byte: u8) -> u32
    ensures { result ≡ upper_page f byte }
{
    widen(byte & f.upper)
}

// The stage after the whole address.
#[tactic(auto, unfolding(crate::specs::Address::after_address))]
pub fn addressed(f: Figure, purpose: Purpose, page: u32, byte: u8) -> Stage
    ensures { result ≡ after_address f purpose page byte }
{
    let at = (page as usize) * 256 + usize::from(byte);
    match purpose {
        Purpose::ToRead => Stage::Ready {
            what: What::Array,
            at,
        },
        Purpose::ToReadFast => if f.dummy == 1 {
            Stage::Dummy { shift: NO_BITS, at }
        } else {
            Stage::Ready {
                what: What::Array,
                at,
            }
        },
        Purpose::ToWrite => Stage::Writing {
            came: Came::NoByte,
            shift: NO_BITS,
            last: 0,
            at,
        },
    }
}

// The next address, rolling from the last to 0.
#[tactic(auto, unfolding(crate::specs::Address::next_address))]
pub fn next_address(f: Figure, at: usize) -> usize
    ensures { result ≡ next_address f at }
{
    if f.size <= at {
        return 0;
    }
    let next = at + 1;
    if f.size <= next {
        return 0;
    }
    next
}
