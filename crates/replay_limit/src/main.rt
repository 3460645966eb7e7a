// The replay program on an input of more than 32,768 bytes. Byte 32,768 is the first of a number of two, so that the
// number is cut off there: refusal 8. The select that follows is not seen.
#![tactic(auto)]

use bench::replay::replay_input;

fn main() {
    replay_input();
}
