// Lists the numbers of a trace. One line for each, with its place and what it is, and a last line for the end or the
// refusal that stops it.
#![tactic(auto)]

use console::{read, say, say_hex, write};
use trace::answer::{Read, Refused};
use trace::items::{FIRST_BYTE, LAST_BYTE, pulses_of};
use trace::reader::{MOST_BYTES, number_at};

// "Pins: 0 /CS, 1 SCK, 2 SI, 3 /HOLD, 4 /WP, 5 VDD."
const PINS: [&[u8]; 6] = [b"/CS", b"SCK", b"SI", b"/HOLD", b"/WP", b"VDD"];

// What a number is by its place among the numbers.
#[derive(Clone, Copy)]
enum Role {
    Part,
    Kept,
    Item,
}

impl Role {
    // "The first number is the part, the second the kept bits, then items".
    fn after(self) -> Role {
        match self {
            Role::Part => Role::Kept,
            Role::Kept | Role::Item => Role::Item,
        }
    }
}

fn main() {
    let mut buf = [0u8; MOST_BYTES];
    let n = read(&mut buf);
    list(&buf[..n]);
}

// The numbers from the slice's start to its end or to the first refusal. Each read gives the place of the next one, so there is no
// range to go over.
fn list(s: &[u8]) {
    let mut at = 0;
    let mut role = Role::Part;
    loop {
        match number_at(s, at) {
            Ok(Read::Number { value, next }) => {
                number_line(at, role, value);
                role = role.after();
                at = next;
            }
            Ok(Read::End { at: place }) => {
                end_line(place);
                return;
            }
            Err(refused) => {
                refusal_line(refused);
                return;
            }
        }
    }
}

fn number_line(at: usize, role: Role, value: u64) {
    say(b"at ", at as u64);
    match role {
        Role::Part => say(b" part ", value),
        Role::Kept => say_hex(b" kept bits ", value),
        Role::Item => say_item(value),
    }
    write(b"\n");
}

// "0 to 11 is an event; 12 to 267 is a data byte, the number less 12"; from 268 up it is pulses of SCK.
fn say_item(value: u64) {
    if value < FIRST_BYTE {
        say(b" event ", value);
        write(b": ");
        write(PINS[(value / 2) as usize]);
        write(if value % 2 == 0 { b" low" } else { b" high" });
        return;
    }
    say(b" item ", value);
    if value <= LAST_BYTE {
        say_hex(b": byte ", value - FIRST_BYTE);
        return;
    }
    say(b": ", pulses_of(value));
    write(b" pulses");
}

fn end_line(at: usize) {
    say(b"end at ", at as u64);
    write(b"\n");
}

fn refusal_line(refused: Refused) {
    say(b"refused ", u64::from(u8::from(refused.refusal)));
    say(b" at ", refused.at as u64);
    write(b"\n");
}
