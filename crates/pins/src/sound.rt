// The soundness test. docs/SOUNDNESS.md states its conditions on the state's fields.
ghost use Rattle.std.specs.Prelude.{◌≡◌};
ghost use Rattle.pins.specs.Sound.{rests, sound_by, sound};

use crate::hold::hold_high;
use crate::state::State;
use parts::figures::{Figure, figure_of, is_part};
use stages::close::{is_asleep, is_closed};
use stages::sound::sound_stage;
use stages::wp::is_up;

// Whether every line and bit but the kept ones is as at power-up.
#[tactic(auto, unfolding(crate::specs::Sound::rests))]
fn rests(s: State) -> bool
    ensures { result ≡ rests s }
{
    let hold = s.hold;
    let stage = s.stage;
    let si = s.si;
    let wp = s.wp;
    !s.sck
        & !is_up(si)
        & is_up(wp)
        & !s.latch
        & hold_high(hold)
        & is_closed(stage)
        & !is_asleep(stage)
}

// The test by figures that the caller has read. Power off has one form, the off state. One test after the other: with power
// on, whether the lines rest is not asked (docs/SPEED.md).
pub fn sound_by(f: Figure, s: State) -> bool
    ensures { result ≡ sound_by f s }
{
    let stage = s.stage;
    if !is_part(u64::from(s.part)) {
        return false;
    }
    if s.kept & f.kept != s.kept {
        return false;
    }
    if !sound_stage(f, stage) {
        return false;
    }
    if s.power {
        return true;
    }
    rests(s)
}

// Whether the state is sound.
#[tactic(auto, unfolding(crate::specs::Sound::sound))]
pub fn sound(s: State) -> bool
    ensures { result ≡ sound s }
{
    sound_by(figure_of(u64::from(s.part)), s)
}
