// What a program reads and writes: standard input, output and error. A write that fails is not told, since nobody is left to tell.
#![tactic(auto)]

ghost use Rattle.std.specs.Prelude.{◌<◌, SomeIff};
ghost use Rattle.std.specs.Char.{digit_value};
ghost use Rattle.io.specs.Counts.{IsPrefixLen};

const STDIN: i32 = 0;

const STDOUT: i32 = 1;

const STDERR: i32 = 2;

// Standard input, as much of it as there is room for.
pub fn read(room: &mut [u8]) -> usize
    ensures { IsPrefixLen result room.new }
{
    io::read_full(STDIN, room)
}

pub fn write(text: &[u8]) {
    io::write_all(STDOUT, text);
}

// A line for the person at the bench, beside what the program writes.
pub fn complain(text: &[u8]) {
    io::write_all(STDERR, text);
}

// A word and a number after it, in decimal.
pub fn say(word: &[u8], n: u64) {
    write(word);
    io::print_decimal(STDOUT, n);
}

// The same in hex, of two digits at least.
pub fn say_hex(word: &[u8], n: u64) {
    write(word);
    io::print_hex(STDOUT, n, 2);
}

// The value of a hex digit, capital or small; none of any other byte.
pub fn digit(c: u8) -> Option<u8>
    ensures { SomeIff result (digit_value c < 16) (digit_value c) }
{
    match c {
        b'0'..=b'9' => Some(c - b'0'),
        b'A'..=b'F' => Some(c - b'A' + 10),
        b'a'..=b'f' => Some(c - b'a' + 10),
        _ => None,
    }
}
