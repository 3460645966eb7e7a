// The replay program: a trace on standard input, its report on standard output.
#![tactic(auto)]

use bench::replay::replay_input;

fn main() {
    replay_input();
}
