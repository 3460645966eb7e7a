// The replay: a trace is read, and its report, which `text` makes, is written.
use crate::text::report;
use console::{read, write};
use report::lines::LINE;
use trace::reader::MOST_BYTES;

// Room for the report of 32,768 bytes: a select takes two of them at least, 0 and 1, and a line is 256 bytes at most,
// so 16,385 lines of selects, line 1 and the last line. This is argued here and not proved.
const ROOM: usize = (MOST_BYTES / 2 + 3) * LINE;

// Writes the report of a trace, which is put into `room`. A function of its own, since a proof does not go over an array of this
// length where it is made.
fn write_report(trace: &[u8], room: &mut [u8; ROOM]) {
    let n = report(trace, room);
    write(&room[..n]);
}

// Prints the report of a trace of at most 32,768 bytes.
pub fn replay(trace: &[u8]) {
    let mut room = [0u8; ROOM];
    write_report(trace, &mut room);
}

// "It reads a trace from standard input, up to 32,768 bytes, as if the input ended there."
pub fn replay_input() {
    let mut input = [0u8; MOST_BYTES];
    let n = read(&mut input);
    replay(&input[..n]);
}
