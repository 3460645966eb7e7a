// The spell program's run over many texts, which stand in the file `stdin`. What each spells, in the file `stdout`, was
// worked out by hand from the language's rules; the title above a text says what it is about.
//
// A line of the input that begins with `=` is a title, which is printed; the lines up to the next one, or to the input's
// end, are a text. Its trace is printed in hex, a line of it; or the line that says what is wrong.
#![tactic(auto)]

ghost use Rattle.std.specs.Prelude.{◌≤◌, ◌<◌, length};

use report::lines::LINE;
use speller::remarks::remark;
use spelling::spell::{Fault, spell};
use trace::reader::MOST_BYTES;

// The longest input.
const INPUT: usize = 32768;

fn main() {
    let mut input = [0u8; INPUT];
    let n = console::read(&mut input);
    cases(&input[..n]);
}

// Each title, and the text behind it.
fn cases(input: &[u8]) {
    let mut rest = input;
    while !rest.is_empty() {
        let from = title(rest);
        let behind = &rest[from..];
        let end = text_end(behind);
        run(&behind[..end]);
        rest = &behind[end..];
    }
}

// Prints the first line, and answers the place behind it.
fn title(input: &[u8]) -> usize
    requires { 0 < length input.now }
    ensures { (0 < result) × (result ≤ length input.now) }
{
    let end = match input.iter().position(|c| *c == b'\n') {
        Some(at) => at + 1,
        None => input.len(),
    };
    console::write(&input[..end]);
    end
}

// The place of the first title, where a line begins; or the input's end.
fn text_end(input: &[u8]) -> usize
    ensures { result ≤ length input.now }
{
    let mut starts = true;
    for (i, c) in input.iter().enumerate() {
        if starts && *c == b'=' {
            return i;
        }
        starts = *c == b'\n';
    }
    input.len()
}

// What a text spells.
fn run(text: &[u8]) {
    let mut out = [0u8; MOST_BYTES];
    let answer = spell(text, &mut out);
    print_remark(answer);
    if let Ok(length) = answer {
        print_trace(&out[..length]);
    }
}

fn print_remark(answer: Result<usize, Fault>) {
    let mut line = [0u8; LINE];
    let n = remark(&mut line, answer);
    console::write(&line[..n]);
}

// The bytes, each in hex.
fn print_trace(trace: &[u8]) {
    for byte in trace {
        console::say_hex(b"", u64::from(*byte));
        console::write(b" ");
    }
    console::write(b"\n");
}
