// Watches a trace: a trace on standard input, its story on standard output, one line for each thing that happened.
#![tactic(auto)]

use story::watch::watch_input;

fn main() {
    watch_input();
}
