// A text character by character: where words and lines end.
ghost use Rattle.std.specs.Prelude.{◌≡◌};
ghost use Rattle.spelling.specs.Marks.{char_at, word_ended, ends_line, line_ended, mode_after};

use sayings::chars::Kind;

// Where a character stands: between words, in a comment, or in the word that began at a place.
#[derive(Clone, Copy, Debug, PartialEq, Eq)]
pub enum Mode {
    Between,
    Comment,
    Inside { from: usize },
}

// The character at a place; behind the last one the text ends as a line does.
#[tactic(auto, unfolding(crate::specs::Marks::char_at))]
pub(crate) fn char_at(text: &[u8], i: usize) -> u8
    ensures { result ≡ char_at text.now i }
{
    text.get(i).copied().unwrap_or(b'\n')
}

// The word that a character ends, by the place where it began: any but a letter ends one.
pub(crate) fn word_ended(mode: Mode, kind: Kind) -> Option<usize>
    ensures { result ≡ word_ended mode kind }
{
    match (mode, kind) {
        (Mode::Inside { from }, Kind::NewLine | Kind::Hash | Kind::Blank) => Some(from),
        _ => None,
    }
}

// Whether a character ends what a line says: a comment's start does, and then the line's end does no more.
pub(crate) fn line_ended(mode: Mode, kind: Kind) -> bool
    ensures { result ≡ line_ended mode kind }
{
    !matches!(mode, Mode::Comment) && ends_line(kind)
}

fn ends_line(kind: Kind) -> bool
    ensures { result ≡ ends_line kind }
{
    matches!(kind, Kind::NewLine | Kind::Hash)
}

// Where the character after it stands.
pub(crate) fn mode_after(mode: Mode, kind: Kind, i: usize) -> Mode
    ensures { result ≡ mode_after mode kind i }
{
    match (kind, mode) {
        (Kind::NewLine, _) => Mode::Between,
        (Kind::Hash, _) => Mode::Comment,
        (Kind::Blank, Mode::Inside { .. }) => Mode::Between,
        (Kind::Letter, Mode::Between) => Mode::Inside { from: i },
        (Kind::Blank | Kind::Letter, stays) => stays,
    }
}
