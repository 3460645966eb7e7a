// A select's record: what its line tells, by value; beside it, in a lent buffer, the first bytes of SO.
ghost use Rattle.std.specs.Prelude.{◌≡◌};
ghost use Rattle.report.specs.Record.{counted, sampled, code_after, kept_at, no_rise, risen, shown_after, noted};

use select::notes::{Level, Note};
use stages::bits::{NO_BITS, Taken, take_bit};

// "at most the first 64" bytes of SO, and the clocks of an op-code. `specs/Record.antt` has them for the definitions.
pub const SHOWN: usize = 64;

pub const CODE_CLOCKS: u64 = 8;

#[derive(Clone, Copy)]
pub struct Record {
    // Whether the chip slept before the select, which is ignored then.
    pub ignored: bool,
    // Seen rises.
    pub clocks: u64,
    // The op-code's bits, as far as they came, the newest lowest.
    pub code: u8,
    // The bits of SO that are no whole byte yet, with a 1 before them, and how many whole bytes there were.
    pub sample: u16,
    pub shown: u64,
    // Stored notes.
    pub stored: u64,
}

// One more. A count stops at the largest number that it can hold; no trace comes near it.
#[tactic(auto, unfolding(crate::specs::Record::counted))]
pub fn count(n: u64) -> u64
    ensures { result ≡ counted n }
{
    n.saturating_add(1)
}

// SO's bits with one more, where SO is driven.
#[tactic(auto, unfolding(crate::specs::Record::sampled))]
pub fn sample(bits: u16, so: Level) -> Taken
    ensures { result ≡ sampled bits so }
{
    match so {
        Level::Low => take_bit(bits, false),
        Level::High => take_bit(bits, true),
        Level::Released => Taken::Part(bits),
    }
}

// The op-code's bits with one more; the first eight rises have them.
#[tactic(auto, unfolding(crate::specs::Record::code_after))]
fn code_after(clocks: u64, code: u8, si: bool) -> u8
    ensures { result ≡ code_after clocks code si }
{
    if CODE_CLOCKS <= clocks {
        return code;
    }
    (code << 1) | u8::from(si)
}

// The byte at its place; a byte that the buffer has no place for is not kept.
fn keep(shown: &mut [u8; SHOWN], at: u64, byte: u8)
    ensures { shown.new ≡ kept_at shown.old at byte }
{
    if at < SHOWN as u64 {
        shown[at as usize] = byte;
    }
}

impl Record {
    // A select that no rise was seen in.
    pub fn new(ignored: bool) -> Record
        ensures { result ≡ no_rise ignored }
    {
        Record {
            ignored,
            clocks: 0,
            code: 0,
            sample: NO_BITS,
            shown: 0,
            stored: 0,
        }
    }

    // After a seen rise, with SI and SO as they stood before it.
    #[tactic(auto, unfolding(crate::specs::Record::risen, crate::specs::Record::shown_after))]
    pub fn rise(self, si: bool, so: Level, shown: &mut [u8; SHOWN]) -> Record
        ensures value { result ≡ risen self si so }
        ensures shown_after { shown.new ≡ shown_after shown.old self so }
    {
        let clocks = count(self.clocks);
        let code = code_after(self.clocks, self.code, si);
        match sample(self.sample, so) {
            Taken::Part(sample) => Record {
                clocks,
                code,
                sample,
                ..self
            },
            Taken::Whole(byte) => {
                keep(shown, self.shown, byte);
                Record {
                    ignored: self.ignored,
                    clocks,
                    code,
                    sample: NO_BITS,
                    shown: count(self.shown),
                    stored: self.stored,
                }
            }
        }
    }

    // After a note.
    #[tactic(auto, unfolding(crate::specs::Record::noted))]
    pub fn note(self, note: Note) -> Record
        ensures { result ≡ noted self note }
    {
        match note {
            Note::Stored(_, _) => Record {
                stored: count(self.stored),
                ..self
            },
            _ => self,
        }
    }
}
