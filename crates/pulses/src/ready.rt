// Pulses that an open select sees, and that a sum may answer.
ghost use Rattle.std.specs.Prelude.{◌≡◌, true, false};
ghost use Rattle.pulses.specs.Sums.{counts_on, steady, idle};

use turns::stand::Stand;

// What stands, how long the array is, and how many pulses there are: the checks of an event let the chip and the array
// through, a select sees the pulses, and no count stops within them.
#[derive(Clone, Copy)]
pub struct Ready {
    pub stand: Stand,
    pub len: usize,
    pub pulses: u64,
    ghost steady_state: { steady stand.chip len ≡ true },
    ghost not_idle: { idle stand.chip ≡ false },
    ghost counts_fit: { counts_on stand.told pulses ≡ true },
}
