// A text as a trace: what a program calls.
ghost use Rattle.std.specs.Prelude.{◌≡◌, ◌+◌, ◌≤◌, length};
ghost use Rattle.std.proofs.lemmas.List.Edits.{sets};
ghost use Rattle.spelling.specs.Meaning.{longest};
ghost use Rattle.spelling.specs.Spelt.{Spells, most_bytes, fault_of, next_place, place_from, place_at};

use crate::short::Short;
use crate::turns::{Stop, pass};
use sayings::says::Next;
use trace::reader::MOST_BYTES;

// The most characters of a text; `specs/Meaning.antt` has it for the definitions.
pub const LONGEST: usize = 262_144;

// A place of a text, both counted from 1.
#[derive(Clone, Copy, Debug, PartialEq, Eq)]
pub struct Place {
    pub line: u64,
    pub column: u64,
}

// Why a text spells no trace: a place, and what was expected there; or the place of what has no room in the trace; or a
// text that is too long. It is no `Stop` of another place, since no reading stops with a text that is too long.
#[derive(Clone, Copy, Debug, PartialEq, Eq)]
pub enum Fault {
    Wrong { place: Place, expected: Next },
    Full { place: Place },
    Long,
}

// The place behind a character.
fn next_place(place: Place, c: u8) -> Place
    requires { (place.line ≤ longest) × (place.column ≤ longest) }
    ensures { result ≡ next_place place c }
{
    if c == b'\n' {
        Place {
            line: place.line + 1,
            column: 1,
        }
    } else {
        Place {
            line: place.line,
            column: place.column + 1,
        }
    }
}

// The place behind characters that begin a text.
fn place_behind(front: &[u8]) -> Place
    requires { length front.now ≤ longest }
    ensures { result ≡ place_from 1 1 front.now }
{
    let mut place = Place { line: 1, column: 1 };
    for c in front {
        place = next_place(place, *c);
    }
    place
}

// The place of the character at `i`; at the text's end where there is none.
#[tactic(auto, unfolding(crate::specs::Spelt::place_at))]
fn place_at(short: Short, i: usize) -> Place
    ensures { result ≡ place_at short.entry.text.now i }
{
    let text = short.text;
    place_behind(text.get(..i).unwrap_or(text))
}

// Why the reading of a text stopped, with line and column.
fn fault_of(text: Short, stop: Stop) -> Fault
    ensures { result ≡ fault_of text.entry.text.now stop }
{
    match stop {
        Stop::Wrong { place, expected } => Fault::Wrong {
            place: place_at(text, place),
            expected,
        },
        Stop::Full { place } => Fault::Full {
            place: place_at(text, place),
        },
    }
}

// Bytes from a place of a slice on, as many of them as have room there.
pub fn copy(out: &mut [u8], at: usize, bytes: &[u8])
    ensures { out.new ≡ sets out.old at bytes.now }
{
    if out.len() <= at {
        return;
    }
    let n = bytes.len().min(out.len() - at);
    let behind = at + n;
    out[at..behind].copy_from_slice(&bytes[..n]);
}

// The trace is made in `trace`, and copied where the whole text is spelt.
#[tactic(auto, using(crate::proofs::SpellTurns::spelt_fits))]
fn spell_in(text: Short, trace: &mut [u8], out: &mut [u8]) -> Result<usize, Fault>
    requires { (length trace.old ≡ most_bytes) × (length out.old ≡ most_bytes) }
    ensures { Spells text.entry.text.now out.old out.new result }
{
    match pass(text, trace) {
        Ok(here) => {
            let n = here.at;
            copy(out, 0, &trace[..n]);
            Ok(n)
        }
        Err(stop) => Err(fault_of(text, stop)),
    }
}

// Puts the trace that a text spells at the front of `out`, whose rest stays, and answers its length. Where the text spells
// none, it says why, and all of `out` stays.
pub fn spell(text: &[u8], out: &mut [u8; MOST_BYTES]) -> Result<usize, Fault>
    ensures { Spells text.now out.old out.new result }
{
    if LONGEST < text.len() {
        return Err(Fault::Long);
    }
    let mut trace = [0u8; MOST_BYTES];
    spell_in(Short { text }, &mut trace, out)
}
