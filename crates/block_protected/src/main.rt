// The story block-protected.spell, in examples/: its report, and the story told.
#![tactic(auto)]

use stories::tell_input;

fn main() {
    tell_input();
}
