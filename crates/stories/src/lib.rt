// A text told whole: what it spells is replayed, and then told as a story.
#![tactic(auto)]

use bench::replay::replay;
use spelling::spell::spell;
use story::watch::watch;
use trace::reader::MOST_BYTES;

// The longest text.
const INPUT: usize = 4096;

// The report of a trace, and its story.
fn tell_trace(trace: &[u8]) {
    replay(trace);
    watch(trace);
}

// The report and the story of what a text spells; nothing, where it is wrong.
fn tell(text: &[u8]) {
    let mut out = [0u8; MOST_BYTES];
    if let Ok(length) = spell(text, &mut out) {
        tell_trace(&out[..length]);
    }
}

// The text is on standard input.
pub fn tell_input() {
    let mut input = [0u8; INPUT];
    let n = console::read(&mut input);
    tell(&input[..n]);
}
