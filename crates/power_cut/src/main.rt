// The story power-cut.spell, in examples/: its report, and the story told.
#![tactic(auto)]

use stories::tell_input;

fn main() {
    tell_input();
}
