// What a word says where it stands, and what a line's end says.
ghost use Rattle.std.specs.Prelude.{◌≡◌};
ghost use Rattle.sayings.specs.Says.{
  pin_of,
  said_verb,
  said_any,
  said_name,
  said_part,
  said_kept,
  said_level,
  pulses_of,
  said_idle,
  said_held,
  said_bits,
  said_item,
  said_word,
  said_end,
};

use crate::words::{all_bits, byte_of, number_of, same};
use trace::items::LAST_BYTE;
use trace::number::LARGEST;

// The pins have the numbers below this one; `specs/Says.antt` has it for the definitions, and the next too.
const PINS: u8 = 6;

// The most pulses that one item can be.
const MOST_PULSES: u64 = LARGEST - LAST_BYTE;

// What may stand next: a word of the first line, a line's end, any word of a later line, or what such a word asks for. A
// pin goes by document 01's number: an enum of the six would ask more of whoever calls `hear`.
#[derive(Clone, Copy, Debug, PartialEq, Eq)]
pub enum Next {
    Part,
    PartNumber,
    Kept,
    KeptByte,
    LineEnd,
    Word,
    Level { pin: u8 },
    Idle,
    Held,
    Bits,
    Item,
}

// What a word or a line's end says, where it may stand there: only what stands next; an item and what stands next; a
// byte of the line's select, or the end of that select; pulses in hold; bits, which the word itself has.
#[derive(Clone, Copy, Debug, PartialEq, Eq)]
pub enum Said {
    Then { next: Next },
    One { item: u64, next: Next },
    Byte { byte: u64 },
    Close,
    InHold { pulses: u64 },
    Clocked,
}

// The number of the pin that a word names.
#[tactic(auto, unfolding(crate::specs::Says::pin_of))]
fn pin_of(word: &[u8]) -> Option<u8>
    ensures { result ≡ pin_of word.now }
{
    if same(word, b"cs") {
        Some(0)
    } else if same(word, b"sck") {
        Some(1)
    } else if same(word, b"si") {
        Some(2)
    } else if same(word, b"hold") {
        Some(3)
    } else if same(word, b"wp") {
        Some(4)
    } else if same(word, b"vdd") {
        Some(5)
    } else {
        None
    }
}

// A word that names power or asks for a number or bits.
#[tactic(auto, unfolding(crate::specs::Says::said_verb))]
fn hear_verb(word: &[u8]) -> Option<Said>
    ensures { result ≡ said_verb word.now }
{
    if same(word, b"cut") {
        one(10)
    } else if same(word, b"power") {
        one(11)
    } else if same(word, b"idle") {
        then(Next::Idle)
    } else if same(word, b"held") {
        then(Next::Held)
    } else if same(word, b"bits") {
        then(Next::Bits)
    } else if same(word, b"item") {
        then(Next::Item)
    } else {
        None
    }
}

// An item of its own.
fn one(item: u64) -> Option<Said>
    ensures { result ≡ Some (Said.One item Next.Word) }
{
    let next = Next::Word;
    Some(Said::One { item, next })
}

fn then(next: Next) -> Option<Said>
    ensures { result ≡ Some (Said.Then next) }
{
    Some(Said::Then { next })
}

// Any word of a line but the first: a byte, a pin, or one of the other words.
#[tactic(auto, unfolding(crate::specs::Says::said_any))]
fn hear_any(word: &[u8]) -> Option<Said>
    ensures { result ≡ said_any word.now }
{
    if let Some(byte) = byte_of(word) {
        return Some(Said::Byte { byte });
    }
    match pin_of(word) {
        Some(pin) => then(Next::Level { pin }),
        None => hear_verb(word),
    }
}

// `part`, and `kept`.
#[tactic(auto, unfolding(crate::specs::Says::said_name))]
fn hear_name(word: &[u8], name: &[u8], next: Next) -> Option<Said>
    ensures { result ≡ said_name word.now name.now next }
{
    if same(word, name) { then(next) } else { None }
}

// The part's number.
#[tactic(auto, unfolding(crate::specs::Says::said_part))]
fn hear_part(word: &[u8]) -> Option<Said>
    ensures { result ≡ said_part word.now }
{
    let item = number_of(word)?;
    if LAST_BYTE < item {
        return None;
    }
    let next = Next::Kept;
    Some(Said::One { item, next })
}

// The kept bits.
#[tactic(auto, unfolding(crate::specs::Says::said_kept))]
fn hear_kept(word: &[u8]) -> Option<Said>
    ensures { result ≡ said_kept word.now }
{
    let item = byte_of(word)?;
    let next = Next::LineEnd;
    Some(Said::One { item, next })
}

// The level of a pin: its event. No other word asks for a level.
#[tactic(auto, unfolding(crate::specs::Says::said_level))]
fn hear_level(word: &[u8], pin: u8) -> Option<Said>
    ensures { result ≡ said_level word.now pin }
{
    if PINS <= pin {
        return None;
    }
    let low = u64::from(pin) * 2;
    if same(word, b"low") {
        one(low)
    } else if same(word, b"high") {
        one(low + 1)
    } else {
        None
    }
}

// A number of pulses: one at least, and no more than an item can say.
#[tactic(auto, unfolding(crate::specs::Says::pulses_of))]
fn pulses_of(word: &[u8]) -> Option<u64>
    ensures { result ≡ pulses_of word.now }
{
    let n = number_of(word)?;
    if (1..=MOST_PULSES).contains(&n) {
        Some(n)
    } else {
        None
    }
}

#[tactic(auto, unfolding(crate::specs::Says::said_idle))]
fn hear_idle(word: &[u8]) -> Option<Said>
    ensures { result ≡ said_idle word.now }
{
    let pulses = pulses_of(word)?;
    one(LAST_BYTE + pulses)
}

#[tactic(auto, unfolding(crate::specs::Says::said_held))]
fn hear_held(word: &[u8]) -> Option<Said>
    ensures { result ≡ said_held word.now }
{
    let pulses = pulses_of(word)?;
    Some(Said::InHold { pulses })
}

#[tactic(auto, unfolding(crate::specs::Says::said_bits))]
fn hear_bits(word: &[u8]) -> Option<Said>
    ensures { result ≡ said_bits word.now }
{
    if all_bits(word) {
        Some(Said::Clocked)
    } else {
        None
    }
}

#[tactic(auto, unfolding(crate::specs::Says::said_item))]
fn hear_item(word: &[u8]) -> Option<Said>
    ensures { result ≡ said_item word.now }
{
    let item = number_of(word)?;
    one(item)
}

// What a word says where `next` may stand; none where it may not stand there.
#[tactic(auto, unfolding(crate::specs::Says::said_word))]
pub fn hear(next: Next, word: &[u8]) -> Option<Said>
    ensures { result ≡ said_word next word.now }
{
    match next {
        Next::Part => hear_name(word, b"part", Next::PartNumber),
        Next::PartNumber => hear_part(word),
        Next::Kept => hear_name(word, b"kept", Next::KeptByte),
        Next::KeptByte => hear_kept(word),
        Next::LineEnd => None,
        Next::Word => hear_any(word),
        Next::Level { pin } => hear_level(word, pin),
        Next::Idle => hear_idle(word),
        Next::Held => hear_held(word),
        Next::Bits => hear_bits(word),
        Next::Item => hear_item(word),
    }
}

// What a line's end says: no line ends where a word is still asked for. The kept bits may be left out and are then 0;
// a select of the line is closed.
#[tactic(auto, unfolding(crate::specs::Says::said_end))]
pub fn hear_end(selected: bool, next: Next) -> Option<Said>
    ensures { result ≡ said_end selected next }
{
    match next {
        Next::Part => then(Next::Part),
        Next::Kept => one(0),
        Next::Word if selected => Some(Said::Close),
        Next::LineEnd | Next::Word => then(Next::Word),
        Next::PartNumber | Next::KeptByte => None,
        Next::Level { .. } | Next::Idle | Next::Held | Next::Bits | Next::Item => None,
    }
}
