// Checks serial numbers, a line of hex digits each. One that is right is tried wrong too: with each of its bits turned over,
// one at a time, and with each two neighbours exchanged.
//
// A line that begins with `=` is a title, which says what the next serial number is about. The file `stdout` was worked out by a long
// division, bit by bit, and not by this program.
#![tactic(auto)]

ghost use Rattle.io.specs.Counts.{IsPrefixLen};

use console::{digit, read, say, write};
use parts::figures::SERIAL;
use refusals::refusal::Refusal;
use serial::check::check;

// The longest input.
const INPUT: usize = 4096;

// The most bytes that are read of a line.
const MOST: usize = 16;

fn main() {
    let mut input = [0u8; INPUT];
    let n = read(&mut input);
    for text in input[..n].split_inclusive(|byte| *byte == b'\n') {
        line(text.strip_suffix(b"\n").unwrap_or(text));
    }
}

// A title, or a serial number with its answer.
fn line(text: &[u8]) {
    write(text);
    if text.starts_with(b"=") {
        write(b"\n");
        return;
    }
    let mut bytes = [0u8; MOST];
    let n = bytes_of(text, &mut bytes);
    let answer = check(&bytes[..n]);
    say_answer(b": ", answer);
    write(b"\n");
    let Ok(true) = answer else {
        return;
    };
    let mut right = [0u8; SERIAL];
    bytes_of(text, &mut right);
    turned(right);
    exchanged(right);
}

// The bytes of a line, up to what are not two hex digits and for as long as there is room; and how many they are.
fn bytes_of(text: &[u8], bytes: &mut [u8]) -> usize
    ensures { IsPrefixLen result bytes.new }
{
    let mut n = 0;
    for (room, pair) in bytes.iter_mut().zip(text.chunks_exact(2)) {
        let Some(byte) = byte_of(pair) else {
            break;
        };
        *room = byte;
        n += 1;
    }
    n
}

// The byte of two hex digits.
fn byte_of(pair: &[u8]) -> Option<u8> {
    let [high, low] = pair else {
        return None;
    };
    Some(digit(*high)? << 4 | digit(*low)?)
}

// A serial number that is right, with each of its bits turned over: which of them are not found, and how many are.
fn turned(right: [u8; SERIAL]) {
    let mut found = 0;
    for k in 0..SERIAL * 8 {
        let mut wrong = right;
        wrong[k / 8] ^= 0x80 >> (k % 8);
        let answer = check(&wrong);
        if let Ok(false) = answer {
            found += 1;
        } else {
            say(b"bit ", k as u64);
            say_answer(b" turned over: ", answer);
            write(b"\n");
        }
    }
    say(b"one bit turned over: no ", found);
    write(b" times\n");
}

// A serial number that is right, with each two neighbours exchanged.
fn exchanged(right: [u8; SERIAL]) {
    write(b"neighbours exchanged:");
    for i in 1..SERIAL {
        let mut wrong = right;
        wrong.swap(i - 1, i);
        say_answer(b" ", check(&wrong));
    }
    write(b"\n");
}

// Writes a word and an answer after it.
fn say_answer(word: &[u8], answer: Result<bool, Refusal>) {
    match answer {
        Ok(true) => {
            write(word);
            write(b"yes");
        }
        Ok(false) => {
            write(word);
            write(b"no");
        }
        Err(refusal) => say(word, u64::from(u8::from(refusal))),
    }
}
