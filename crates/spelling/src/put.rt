// Items as the bytes of a trace, one behind the other in a lent slice. Each call answers the place behind what was put;
// none where not all of it has room.
ghost use Rattle.std.specs.Prelude.{[], ◌≤◌};
ghost use Rattle.trace.specs.Figures.{largest};
ghost use Rattle.trace.specs.Form.{form};
ghost use Rattle.spelling.specs.Items.{forms, bit_items, items_of};
ghost use Rattle.spelling.specs.Lays.{Lays, Small};
ghost use Rattle.sayings.specs.SaysLaws.{Fits};

use sayings::chars::digit;
use sayings::says::Said;
use trace::items::{FIRST_BYTE, LAST_BYTE};
use trace::number::write_at;

// One item.
fn put_item(out: &mut [u8], at: usize, item: u64) -> Option<usize>
    requires { item ≤ largest }
    ensures { Lays out.old at (form item) out.new result }
{
    write_at(out, at, item).ok()
}

// Items.
fn put_items(out: &mut [u8], at: usize, items: &[u64]) -> Option<usize>
    requires { Small items.now }
    ensures { Lays out.old at (forms items.now) out.new result }
{
    let mut next = at;
    for item in items {
        next = put_item(out, next, *item)?;
    }
    Some(next)
}

// "single bits, each SI, SCK up, SCK down".
fn put_bits(out: &mut [u8], at: usize, word: &[u8]) -> Option<usize>
    ensures { Lays out.old at (forms (bit_items word.now)) out.new result }
{
    let mut next = at;
    for c in word {
        let bit = digit(*c).unwrap_or(16);
        next = put_items(out, next, &[4 + u64::from(bit), 3, 2])?;
    }
    Some(next)
}

// A data byte, with the fall of /CS before the first one of its line.
fn put_byte(out: &mut [u8], at: usize, selected: bool, byte: u64) -> Option<usize>
    requires { byte ≤ 255 }
    ensures { Lays out.old at (forms (items_of selected [] (Said.Byte byte))) out.new result }
{
    let item = FIRST_BYTE + byte;
    if selected {
        put_items(out, at, &[item])
    } else {
        put_items(out, at, &[0, item])
    }
}

// What is said, as items.
pub(crate) fn put_said(
    out: &mut [u8],
    at: usize,
    selected: bool,
    word: &[u8],
    said: Said,
) -> Option<usize>
    requires { Fits said }
    ensures { Lays out.old at (forms (items_of selected word.now said)) out.new result }
{
    match said {
        Said::Then { .. } => Some(at),
        Said::One { item, .. } => put_items(out, at, &[item]),
        Said::Byte { byte } => put_byte(out, at, selected, byte),
        Said::Close => put_items(out, at, &[1]),
        Said::InHold { pulses } => put_items(out, at, &[6, LAST_BYTE + pulses, 7]),
        Said::Clocked => put_bits(out, at, word),
    }
}
