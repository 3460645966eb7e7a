// Characters: what each is for the parting of words, and as a digit.
ghost use Rattle.std.specs.Prelude.{◌≡◌};
ghost use Rattle.sayings.specs.Characters.{kind_of, digit_of};

// What a character is outside a comment.
#[derive(Clone, Copy, Debug, PartialEq, Eq)]
pub enum Kind {
    NewLine,
    Hash,
    Blank,
    Letter,
}

// "words are parted by spaces and tabs (a carriage return counts as a space)", a line's end and a comment.
#[tactic(auto, unfolding(crate::specs::Characters::kind_of))]
pub fn kind_of(c: u8) -> Kind
    ensures { result ≡ kind_of c }
{
    match c {
        b'\n' => Kind::NewLine,
        b'#' => Kind::Hash,
        b' ' | b'\t' | b'\r' => Kind::Blank,
        _ => Kind::Letter,
    }
}

// The value of a hex digit, capital or small.
#[tactic(auto, unfolding(crate::specs::Characters::digit_of))]
pub fn digit(c: u8) -> Option<u32>
    ensures { result ≡ digit_of c }
{
    char::from(c).to_digit(16)
}
