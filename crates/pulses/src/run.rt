// The pulses of an item: SCK up then down, as often as it says.
ghost use Rattle.turns.specs.Bench.{Takes};
ghost use Rattle.pulses.specs.Pulse.{pulsed};

use crate::skip::skip;
use turns::turn::Bench;

// One pulse, event by event, where none before it was refused.
fn take_pulse(bench: &mut Bench)
    ensures { Takes bench.old (pulsed 1) bench.new }
{
    if bench.refusal.is_some() {
        return;
    }
    bench.take_event(3);
    if bench.refusal.is_some() {
        return;
    }
    bench.take_event(2);
}

// So many pulses, up to the first event that is refused. What is skipped at once is any number of them.
pub fn take_pulses(bench: &mut Bench, pulses: u64)
    ensures { Takes bench.old (pulsed pulses) bench.new }
{
    let mut left = pulses;
    while 0 < left {
        if bench.refusal.is_some() {
            return;
        }
        let skipped = skip(bench.stand, bench.array, left);
        bench.stand = skipped.stand;
        left = skipped.left;
        if left == 0 {
            return;
        }
        take_pulse(bench);
        left -= 1;
    }
}
