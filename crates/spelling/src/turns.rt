// A text's words and lines taken one after the other, each by what it says; the trace grows in a lent slice.
ghost use Rattle.std.specs.Prelude.{◌≡◌, [], ◌∷◌, ◌++◌, ◌≤◌, length};
ghost use Rattle.spelling.specs.Marks.{word, line_end, word_marks, line_marks, EndedFits};
ghost use Rattle.spelling.specs.Meaning.{here_after, ready};
ghost use Rattle.sayings.specs.SaysLaws.{FitsIfSaid};
ghost use Rattle.spelling.specs.Told.{Acts, Follows, finished, passed, wholly};

use crate::marks::{Mode, char_at, line_ended, mode_after, word_ended};
use crate::put::put_said;
use crate::short::Short;
use sayings::chars::kind_of;
use sayings::says::{Next, Said, hear, hear_end};

// Where the reading of a text stands: whether the line's select is open, what may stand next, and the trace's length.
#[derive(Clone, Copy, Debug, PartialEq, Eq)]
pub struct Here {
    pub selected: bool,
    pub next: Next,
    pub at: usize,
}

// Why the reading stops, with the place of the word or line's end in the text: nothing that may be said there, with what
// was expected; no room for its items.
#[derive(Clone, Copy, Debug, PartialEq, Eq)]
pub enum Stop {
    Wrong { place: usize, expected: Next },
    Full { place: usize },
}

fn here_after(selected: bool, said: Said, at: usize) -> Here
    ensures { result ≡ here_after selected said at }
{
    let (selected, next) = match said {
        Said::Then { next } | Said::One { next, .. } => (selected, next),
        Said::Byte { .. } => (true, Next::Word),
        Said::Close => (false, Next::Word),
        Said::InHold { .. } | Said::Clocked => (selected, Next::Word),
    };
    Here { selected, next, at }
}

// Puts the items of what is said at a place behind the trace.
#[tactic(auto, using(crate::proofs::MarkTurns::act_wrong, crate::proofs::MarkTurns::act_full))]
fn act(
    out: &mut [u8],
    here: Here,
    place: usize,
    word: &[u8],
    said: Option<Said>,
) -> Result<Here, Stop>
    requires { FitsIfSaid said }
    ensures { Acts out.old here place word.now said out.new result }
{
    let expected = here.next;
    let said = said.ok_or(Stop::Wrong { place, expected })?;
    let at = put_said(out, here.at, here.selected, word, said).ok_or(Stop::Full { place })?;
    Ok(here_after(here.selected, said, at))
}

// A word of the text.
#[tactic(auto, using(crate::proofs::MarkTurns::word_taken))]
fn take_word(text: &[u8], from: usize, end: usize, here: Here, out: &mut [u8]) -> Result<Here, Stop>
    requires { (from ≤ end) × (end ≤ length text.now) }
    ensures { Follows text.now out.old here (word from end ∷ []) out.new result }
{
    let w = &text[from..end];
    let said = hear(here.next, w);
    act(out, here, from, w, said)
}

// The end of what a line says.
#[tactic(auto, using(crate::proofs::MarkTurns::end_taken))]
fn take_end(text: &[u8], i: usize, here: Here, out: &mut [u8]) -> Result<Here, Stop>
    ensures { Follows text.now out.old here (line_end i ∷ []) out.new result }
{
    let said = hear_end(here.selected, here.next);
    act(out, here, i, &[], said)
}

// The end of a line, where a character ends one.
fn turn_line(text: &[u8], i: usize, ends: bool, here: Here, out: &mut [u8]) -> Result<Here, Stop>
    ensures { Follows text.now out.old here (line_marks ends i) out.new result }
{
    if ends {
        take_end(text, i, here, out)
    } else {
        Ok(here)
    }
}

// The word and the line that a character ends.
fn take_char(
    text: &[u8],
    i: usize,
    ended: Option<usize>,
    ends: bool,
    here: Here,
    out: &mut [u8],
) -> Result<Here, Stop>
    requires { EndedFits ended i × (i ≤ length text.now) }
    ensures { Follows text.now out.old here (word_marks ended i ++ line_marks ends i) out.new result }
{
    match ended {
        None => turn_line(text, i, ends, here, out),
        Some(from) => {
            let behind = take_word(text, from, i, here, out)?;
            turn_line(text, i, ends, behind, out)
        }
    }
}

// Whether a text may end here.
#[tactic(auto, unfolding(crate::specs::Meaning::ready))]
fn is_ready(next: Next) -> bool
    ensures { result ≡ ready next }
{
    matches!(next, Next::Word)
}

// The end of the text.
fn finish(here: Here, end: usize) -> Result<Here, Stop>
    ensures { result ≡ finished here end }
{
    let expected = here.next;
    if is_ready(expected) {
        Ok(here)
    } else {
        Err(Stop::Wrong {
            place: end,
            expected,
        })
    }
}

// The whole text, character by character, and its end, which ends its last line: the place is what a word begins at. Where it is
// wrong, the slice is of no use.
#[tactic(auto, using(crate::proofs::TextTurns::text_start, crate::proofs::TextTurns::char_stop))]
pub(crate) fn pass(short: Short, out: &mut [u8]) -> Result<Here, Stop>
    ensures { passed result out.new ≡ wholly short.entry.text.now out.old }
{
    let text = short.text;
    let mut mode = Mode::Between;
    let mut here = Here {
        selected: false,
        next: Next::Part,
        at: 0,
    };
    for i in 0..text.len() + 1 {
        let kind = kind_of(char_at(text, i));
        let ended = word_ended(mode, kind);
        let ends = line_ended(mode, kind);
        here = take_char(text, i, ended, ends, here, out)?;
        mode = mode_after(mode, kind, i);
    }
    finish(here, text.len())
}
