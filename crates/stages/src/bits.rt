// Bits of a byte: taken in from SI, and shown on SO.
ghost use Rattle.std.specs.Prelude.{◌≡◌};
ghost use Rattle.stages.specs.Bits.{take_bit, bit_of};

use crate::stage::Line;

// A byte after one more bit. Neither case is a failure, so it is no Result.
#[derive(Clone, Copy)]
pub enum Taken {
    Part(u16),
    Whole(u8),
}

// No bit yet: the 1 that stands before the bits.
pub const NO_BITS: u16 = 1;

// The byte with one more bit, "most significant bit first". The eighth bit pushes the 1 out.
#[tactic(auto, unfolding(crate::specs::Bits::take_bit))]
pub fn take_bit(shift: u16, si: bool) -> Taken
    ensures { result ≡ take_bit shift si }
{
    let next = (shift << 1) | (si as u16);
    if next < 256 {
        return Taken::Part(next);
    }
    let byte = (next % 256) as u8;
    Taken::Whole(byte)
}

// Bit number `bit` of a byte.
#[tactic(auto, unfolding(crate::specs::Bits::bit_of))]
pub fn bit_of(byte: u8, bit: u16) -> Line
    ensures { result ≡ bit_of byte bit }
{
    if 8 <= bit {
        return Line::Down;
    }
    Line::from((byte >> bit) & 1 == 1)
}
