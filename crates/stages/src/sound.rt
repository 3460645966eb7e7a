// The part of the soundness test that looks at the stage.
ghost use Rattle.std.specs.Prelude.{◌≡◌};
ghost use Rattle.stages.specs.Sound.{sound_shift, shown_length, sound_last, sound_stage};

use crate::bits::NO_BITS;
use crate::stage::{Came, Stage, What};
use crate::wp::{came_up, is_up, some_came};
use parts::figures::{Figure, IDENT};

// Under eight bits after the 1.
fn sound_shift(shift: u16) -> bool
    ensures { result ≡ sound_shift shift }
{
    (0 < shift) & (shift < 256)
}

// How many bytes there are to show.
fn shown_length(f: Figure, what: What) -> usize
    ensures { result ≡ shown_length f what }
{
    match what {
        What::Array => f.size,
        What::Status => 1,
        What::Ident => IDENT,
        What::Serial => f.serial,
    }
}

// The byte stored last is one of the array, and there is none where no byte came.
fn sound_last(f: Figure, came: Came, last: u32) -> bool
    ensures { result ≡ sound_last f came last }
{
    ((last as usize) <= f.size) & ((last == 0) | some_came(came))
}

// Whether the stage is sound on this part. A data byte's level of /WP is up where no bit of it came.
#[tactic(auto, unfolding(crate::specs::Sound::sound_stage))]
pub fn sound_stage(f: Figure, stage: Stage) -> bool
    ensures { result ≡ sound_stage f stage }
{
    match stage {
        Stage::Closed => true,
        Stage::Asleep => true,
        Stage::Code { wp, shift } => sound_shift(shift) & (f.wp_at_fall | is_up(wp)),
        Stage::Upper { shift, .. } => (f.address_bytes == 2) & sound_shift(shift),
        Stage::Lower { shift, page, .. } => ((page as usize) * 256 < f.size) & sound_shift(shift),
        Stage::Dummy { shift, at } => (f.dummy == 1) & (at < f.size) & sound_shift(shift),
        Stage::Ready { what, at } => at < shown_length(f, what),
        Stage::ArrayOut { bit, at, .. } => (at < f.size) & (bit < 8),
        Stage::StatusOut { bit, .. } => bit < 8,
        Stage::IdentOut { bit, at, .. } => (at < IDENT) & (bit < 8),
        Stage::SerialOut { bit, at, .. } => (at < f.serial) & (bit < 8),
        Stage::Writing {
            came,
            shift,
            last,
            at,
        } => (at < f.size)
            & sound_shift(shift)
            & ((NO_BITS < shift) | came_up(came))
            & sound_last(f, came, last),
        Stage::Keeping { wp, shift } => sound_shift(shift)
            & ((NO_BITS < shift) | (f.wp_at_fall | is_up(wp))),
        Stage::Over { .. } => true,
    }
}
