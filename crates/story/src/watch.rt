// Watching: a trace is read, and its story, which `text` makes, is written.
use crate::text::story;
use trace::reader::MOST_BYTES;

// Room for the story of 32,768 bytes: 128 for each byte of the trace, since an item of one byte has no more than two lines
// of 64, and a run of pulses, of two bytes at least, no more than 256; and 65,536 for the start, the end, a refusal and
// 1,024 rows. This is argued here and not proved.
const ROOM: usize = MOST_BYTES * 128 + 65536;

// Writes the story of a trace, which is put into `room`. A function of its own, since a proof does not go over an array of this
// length where it is made.
fn write_story(trace: &[u8], room: &mut [u8; ROOM]) {
    let n = story(trace, room);
    console::write(&room[..n]);
}

// Prints the story of a trace of at most 32,768 bytes.
pub fn watch(trace: &[u8]) {
    let mut room = [0u8; ROOM];
    write_story(trace, &mut room);
}

// The trace is on standard input.
pub fn watch_input() {
    let mut input = [0u8; MOST_BYTES];
    let n = console::read(&mut input);
    watch(&input[..n]);
}
