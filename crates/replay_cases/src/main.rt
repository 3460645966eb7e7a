// The replay program's run over many traces, which stand in the file `stdin`. Each report in the file `stdout` was
// worked out by hand from document 01; the comment above a trace says why.
//
// A line of the input is a comment, `# ..`; a title, `= ..`, which is printed; bytes of the trace, two hex digits each,
// with spaces between them; or empty, which ends the case, as the end of the input does. A line that is none of these, or
// that has more bytes than there is room for, is said so by its number, and the rest of it is left out.
#![tactic(auto)]

use bench::replay::replay;
use console::{digit, read, say, write};

// The longest input, and the longest trace of a case.
const INPUT: usize = 32768;

const LONGEST: usize = 256;

// Where the next byte of the input stands: at a line's start, in a comment, in a title, before a byte of the trace, or
// between its two digits.
#[derive(Clone, Copy)]
enum Place {
    Start,
    Comment,
    Title,
    High,
    Low(u8),
}

// The case so far: its trace has `len` bytes.
#[derive(Clone, Copy)]
struct Case {
    place: Place,
    line: u64,
    len: usize,
}

impl Case {
    // The same with the next byte somewhere else.
    fn at(self, place: Place) -> Case {
        Case { place, ..self }
    }
}

fn main() {
    let mut text = [0u8; INPUT];
    let mut trace = [0u8; LONGEST];
    let n = read(&mut text);
    cases(&text[..n], &mut trace);
}

// Every byte of the input, and the last case.
fn cases(text: &[u8], trace: &mut [u8]) {
    let mut case = Case {
        place: Place::Start,
        line: 1,
        len: 0,
    };
    for &b in text {
        case = take(case, trace, b);
    }
    run(case.len, trace);
}

// The case after one more byte of the input.
fn take(case: Case, trace: &mut [u8], b: u8) -> Case {
    if b == b'\n' {
        return end_line(case, trace);
    }
    match case.place {
        Place::Start => first(case, b),
        Place::Comment => case,
        Place::Title => {
            write(&[b]);
            case
        }
        Place::High => high(case, b),
        Place::Low(digit) => low(case, trace, digit, b),
    }
}

// A line's end. That of an empty line ends the case.
fn end_line(case: Case, trace: &[u8]) -> Case {
    let line = if case.line < 0xFFFF_FFFF {
        case.line + 1
    } else {
        case.line
    };
    let mut len = case.len;
    match case.place {
        Place::Start => {
            run(len, trace);
            len = 0;
        }
        Place::Title => write(b"\n"),
        Place::Comment | Place::High => {}
        Place::Low(_) => fault(case.line, b": half a byte\n"),
    }
    Case {
        place: Place::Start,
        line,
        len,
    }
}

fn run(len: usize, trace: &[u8]) {
    if len <= trace.len() {
        replay(&trace[..len]);
    }
}

fn fault(line: u64, text: &[u8]) {
    say(b"? line ", line);
    write(text);
}

// A line's first byte.
fn first(case: Case, b: u8) -> Case {
    match b {
        b'#' => case.at(Place::Comment),
        b'=' => {
            write(b"==");
            case.at(Place::Title)
        }
        _ => high(case, b),
    }
}

// A byte's first digit, or a space before it.
fn high(case: Case, b: u8) -> Case {
    if b == b' ' {
        return case.at(Place::High);
    }
    match digit(b) {
        Some(high) => case.at(Place::Low(high)),
        None => {
            fault(case.line, b": no hex digit\n");
            case.at(Place::Comment)
        }
    }
}

// A byte's second digit, which puts the byte into the trace.
fn low(case: Case, trace: &mut [u8], high: u8, b: u8) -> Case {
    let Some(low) = digit(b) else {
        fault(case.line, b": no hex digit\n");
        return case.at(Place::Comment);
    };
    if trace.len() <= case.len {
        fault(case.line, b": trace too long\n");
        return case.at(Place::Comment);
    }
    trace[case.len] = (high << 4) | low;
    Case {
        place: Place::High,
        line: case.line,
        len: case.len + 1,
    }
}
