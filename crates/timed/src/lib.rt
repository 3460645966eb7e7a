// The two event calls as C sees them, for speed/: from power-up with kept bits 0, over the lent array and with the lent
// serial number.
#![tactic(auto)]

use chip::event::event;
use chip::list::events;
use refusals::refusal::{Refusal, number_or_0};
use supply::power::power_up;

fn told(refusal: Option<Refusal>, count: usize) -> u64 {
    if count < 72057594037927936 {
        (count as u64) * 256 + u64::from(number_or_0(refusal))
    } else {
        0
    }
}

// A list by the list call: 256 times the count of events accepted, and the refusal.
#[unsafe(no_mangle)]
pub extern "C" fn by_list(
    part: u64,
    codes: &[u64],
    array: &mut [u8],
    serial: &[u8],
    levels: &mut [u8],
) -> u64 {
    let powered = power_up(part, 0, array);
    let listed = events(powered.state, array, serial, codes, levels);
    told(listed.refusal, listed.count)
}

// The same by single calls.
#[unsafe(no_mangle)]
pub extern "C" fn by_events(
    part: u64,
    codes: &[u64],
    array: &mut [u8],
    serial: &[u8],
    levels: &mut [u8],
) -> u64 {
    let mut state = power_up(part, 0, array).state;
    for (i, code) in codes.iter().enumerate() {
        let Some(level) = levels.get_mut(i) else {
            return told(Some(Refusal::FewAnswers), i);
        };
        let answer = event(state, array, serial, *code);
        if answer.refusal.is_some() {
            return told(answer.refusal, i);
        }
        state = answer.state;
        *level = u8::from(answer.so);
    }
    told(None, codes.len())
}
