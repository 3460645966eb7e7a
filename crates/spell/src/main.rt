// The spell program: a text on standard input, the trace that it spells on standard output.
#![tactic(auto)]

use speller::program::spell_input;

fn main() {
    spell_input();
}
