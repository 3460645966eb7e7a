// Words as names, bytes and numbers.
ghost use Rattle.std.specs.Prelude.{◌≡◌};
ghost use Rattle.sayings.specs.Words.{named, byte_of, number_of, all_bits};

use crate::chars::digit;
use trace::number::LARGEST;

// Whether a word is a name, "upper and lower case alike". A name has small letters.
#[tactic(auto, unfolding(crate::specs::Words::named))]
pub(crate) fn same(word: &[u8], name: &[u8]) -> bool
    ensures { result ≡ named word.now name.now }
{
    word.len() == name.len()
        && word
            .iter()
            .zip(name)
            .all(|(c, small)| c.to_ascii_lowercase() == *small)
}

// The byte of "two hex digits".
#[tactic(auto, unfolding(crate::specs::Words::byte_of))]
pub(crate) fn byte_of(word: &[u8]) -> Option<u64>
    ensures { result ≡ byte_of word.now }
{
    let [high, low] = word else {
        return None;
    };
    let high = digit(*high)?;
    let low = digit(*low)?;
    Some(u64::from(high) * 16 + u64::from(low))
}

// The number of decimal digits, which is a trace number.
#[tactic(auto, unfolding(crate::specs::Words::number_of, crate::specs::Characters::digit_of))]
pub(crate) fn number_of(word: &[u8]) -> Option<u64>
    ensures { result ≡ number_of word.now }
{
    let mut n = 0u64;
    for c in word {
        let d = char::from(*c).to_digit(10)?;
        n = n * 10 + u64::from(d);
        if LARGEST < n {
            return None;
        }
    }
    Some(n)
}

// Whether each character is a bit.
#[tactic(auto, unfolding(crate::specs::Words::all_bits))]
pub(crate) fn all_bits(word: &[u8]) -> bool
    ensures { result ≡ all_bits word.now }
{
    word.iter().all(|c| matches!(c, b'0' | b'1'))
}
