// Calls of the chip, one by one, as the file `stdin` says, and what each answers: document 01's examples 13 and 15, and what a
// trace cannot show, as notes, refusals 2, 4 and 5 and what follows a refusal. Each line of the file `stdout` was worked out
// by hand; the comment above the calls says why.
//
// A line of the input is a comment, `# ..`; a title, `== ..`, which is printed; or a letter and hex numbers, for each of
// which the letter is done in turn:
//   k, l, b   the kept bits of a power-up, the length of the array that is lent, the fill byte, from here on
//   s         the length of the serial number that is lent, from here on
//   u, f, F   power-up of this part; the fill of the array for this part, with no fill byte and with one
//   v, e      this event, with nothing printed; this event
//   w, r      the lender writes this byte at address 0; the byte at this address
//   n         the lender writes this byte as the serial number's first
//   S         the state in an op-code of which these bits came, with the 1 before them
#![tactic(auto)]

use chip::event::event;
use console::{read, say, write};
use pins::state::State;
use refusals::refusal::{Refusal, number_or_0};
use select::notes::{Level, Note};
use stages::stage::{Line, Stage};
use supply::power::{fill, fill_with, power_up};

// The longest input.
const INPUT: usize = 16384;

// The most bytes of an array that are lent.
const MOST: usize = 16640;

// What is set for the calls, the chip, and what is lent to it.
#[derive(Drop)]
struct Desk {
    kept: u64,
    len: usize,
    own: usize,
    byte: u8,
    chip: State,
    array: [u8; MOST],
    serial: [u8; 16],
}

fn main() {
    let mut text = [0u8; INPUT];
    let n = read(&mut text);
    let mut desk = Desk {
        kept: 0,
        len: 512,
        own: 0,
        byte: 0,
        chip: State::at_rest(1, 0, false),
        array: [0u8; MOST],
        serial: [0u8; 16],
    };
    for line in text[..n].split_inclusive(|byte| *byte == b'\n') {
        desk.line(line);
    }
}

// The value of a hex digit, in capitals.
fn digit(byte: u8) -> Option<u64> {
    match byte {
        b'0'..=b'9' => Some(u64::from(byte - b'0')),
        b'A'..=b'F' => Some(u64::from(byte - b'A' + 10)),
        _ => None,
    }
}

impl Desk {
    // A comment, a title, or a letter with numbers. Bytes 00 before the letter are passed over.
    fn line(&mut self, line: &[u8]) {
        let zeros = line.iter().take_while(|byte| **byte == 0).count();
        let line = &line[zeros..];
        let Some((letter, words)) = line.split_first() else {
            return;
        };
        match *letter {
            b'#' => {}
            b'=' => write(line),
            letter => {
                for word in words.split_inclusive(|byte| digit(*byte).is_none()) {
                    self.word(letter, word);
                }
            }
        }
    }

    // The call of a number, which ends with a byte that is no digit.
    fn word(&mut self, letter: u8, word: &[u8]) {
        let Some((end, digits)) = word.split_last() else {
            return;
        };
        if digits.is_empty() || digit(*end).is_some() {
            return;
        }
        let n = digits
            .iter()
            .fold(0, |n, byte| (n << 4) | digit(*byte).unwrap_or(0));
        self.call(letter, n);
    }

    // A letter's call with one number, over as many bytes of the array and of the serial number as are lent.
    fn call(&mut self, letter: u8, n: u64) {
        let Some(array) = self.array.get_mut(..self.len) else {
            return;
        };
        let Some(serial) = self.serial.get_mut(..self.own) else {
            return;
        };
        match letter {
            b'k' => self.kept = n,
            b'l' => self.len = n as usize,
            b's' => self.own = n as usize,
            b'b' => self.byte = (n % 256) as u8,
            b'w' => put_first(array, n),
            b'n' => put_first(serial, n),
            b'r' => tell_byte(array, n as usize),
            b'f' => tell_fill(fill(n, array)),
            b'F' => tell_fill(fill_with(n, array, self.byte)),
            b'u' => self.chip = tell_power_up(array, n, self.kept),
            b'v' => self.chip = event(self.chip, array, serial, n).state,
            b'e' => self.chip = tell_event(self.chip, array, serial, n),
            b'S' => {
                self.chip.stage = Stage::Code {
                    wp: Line::Up,
                    shift: (n % 65536) as u16,
                };
            }
            _ => write(b"? no letter\n"),
        }
    }
}

// The lender writes the first byte of a slice.
fn put_first(slice: &mut [u8], n: u64) {
    if let Some(first) = slice.first_mut() {
        *first = (n % 256) as u8;
    }
}

fn say_refused(word: &[u8], refusal: Option<Refusal>) {
    say(word, u64::from(number_or_0(refusal)));
}

fn say_level(level: Level) {
    match level {
        Level::Low => write(b", SO 0"),
        Level::High => write(b", SO 1"),
        Level::Released => write(b", SO released"),
    }
}

// The other notes are left to the computed examples of the crate chip.
fn say_note(note: Note) {
    match note {
        Note::Nothing => write(b", nothing"),
        Note::Stored(at, byte) => {
            say(b", stored ", at as u64);
            say(b" ", u64::from(byte));
        }
        Note::PowerLost => write(b", power lost"),
        _ => write(b", another note"),
    }
}

// A line for an event, and the state after it.
fn tell_event(chip: State, array: &mut [u8], serial: &[u8], code: u64) -> State {
    let answer = event(chip, array, serial, code);
    say(b"event ", code);
    say_refused(b": refused ", answer.refusal);
    say_level(answer.so);
    say_note(answer.note);
    write(b"\n");
    answer.state
}

fn tell_fill(filled: Result<(), Refusal>) {
    say_refused(b"fill: refused ", filled.err());
    write(b"\n");
}

// A line for a power-up, and the state after it.
fn tell_power_up(array: &[u8], part: u64, kept: u64) -> State {
    let powered = power_up(part, kept, array);
    let chip = powered.state;
    say_refused(b"power-up: refused ", powered.refusal);
    say(b", part ", u64::from(chip.part));
    say(b" kept ", u64::from(chip.kept));
    if chip.power {
        write(b" on\n");
    } else {
        write(b" off\n");
    }
    chip
}

fn tell_byte(array: &[u8], at: usize) {
    if let Some(byte) = array.get(at) {
        say(b"byte ", at as u64);
        say(b" is ", u64::from(*byte));
    }
    write(b"\n");
}
