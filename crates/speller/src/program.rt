// The program's run: a text is read and its trace written; or a line on standard error says what is wrong.
use crate::remarks::remark;
use report::lines::LINE;
use spelling::spell::{Fault, LONGEST, spell};
use trace::reader::MOST_BYTES;

// The line that says what is wrong, if anything is.
fn write_remark(answer: Result<usize, Fault>) {
    let mut line = [0u8; LINE];
    let n = remark(&mut line, answer);
    console::complain(&line[..n]);
}

// The trace of a text.
pub fn write_spelt(text: &[u8]) {
    let mut out = [0u8; MOST_BYTES];
    let answer = spell(text, &mut out);
    write_remark(answer);
    if let Ok(length) = answer {
        console::write(&out[..length]);
    }
}

// The text on standard input. One character more than a text may have is read, so that a longer one is told from it.
pub fn spell_input() {
    let mut text = [0u8; LONGEST + 1];
    let n = console::read(&mut text);
    write_spelt(&text[..n]);
}
