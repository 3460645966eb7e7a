// The story order-4471.spell, in examples/: its report, and the story told.
#![tactic(auto)]

use stories::tell_input;

fn main() {
    tell_input();
}
