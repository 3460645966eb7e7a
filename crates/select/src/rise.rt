// A seen rise of SCK in a select.
ghost use Rattle.std.specs.Prelude.{◌≡◌};
ghost use Rattle.select.specs.Rise.{quiet, opened, code_rise, upper_rise, lower_rise, dummy_rise, store_note, write_rise, keep_rise, rise};

use crate::notes::Note;
use parts::commands::{Command, decode};
use parts::figures::Figure;
use parts::guards::{Reason, may_keep, may_store};
use stages::address::{addressed, header, next_address, upper_page};
use stages::bits::{NO_BITS, Taken, take_bit};
use stages::last::last_by;
use stages::stage::{Came, End, Line, Purpose, Stage, What};
use stages::wp::{byte_came, byte_wp, came_up, is_up};

// What a rise reads besides the stage. The part's row goes beside it: in a struct it would be copied (docs/SPEED.md).
#[derive(Clone, Copy)]
pub struct Seen {
    pub latch: bool,
    pub kept: u8,
    pub wp: bool,
    pub si: bool,
}

// What a rise leaves.
#[derive(Clone, Copy)]
pub struct Risen {
    pub stage: Stage,
    pub latch: bool,
    pub kept: u8,
    pub note: Note,
}

// To this stage, and nothing else happens.
fn to_stage(seen: Seen, stage: Stage) -> Risen
    ensures { result ≡ quiet seen stage }
{
    Risen {
        stage,
        latch: seen.latch,
        kept: seen.kept,
        note: Note::Nothing,
    }
}

// A whole op-code.
#[tactic(auto, unfolding(crate::specs::Rise::opened))]
fn open(f: Figure, seen: Seen, wp: Line, code: u8) -> Risen
    ensures { result ≡ opened f seen wp code }
{
    let ops = f.ops;
    let command = decode(ops, code);
    match command {
        Command::Wren => Risen {
            stage: Stage::Over { end: End::Quiet },
            latch: true,
            kept: seen.kept,
            note: Note::Latch(true),
        },
        Command::Wrdi => Risen {
            stage: Stage::Over { end: End::Quiet },
            latch: false,
            kept: seen.kept,
            note: Note::Latch(false),
        },
        Command::Rdsr => to_stage(
            seen,
            Stage::Ready {
                what: What::Status,
                at: 0,
            },
        ),
        Command::Wrsr => to_stage(seen, Stage::Keeping { wp, shift: NO_BITS }),
        Command::Read => to_stage(seen, header(f, Purpose::ToRead, code)),
        Command::Fstrd => to_stage(seen, header(f, Purpose::ToReadFast, code)),
        Command::Write => to_stage(seen, header(f, Purpose::ToWrite, code)),
        Command::Rdid => to_stage(
            seen,
            Stage::Ready {
                what: What::Ident,
                at: 0,
            },
        ),
        Command::Snr => to_stage(
            seen,
            Stage::Ready {
                what: What::Serial,
                at: 0,
            },
        ),
        Command::Sleep => to_stage(seen, Stage::Over { end: End::Sleeps }),
        Command::Other => to_stage(seen, Stage::Over { end: End::Quiet }),
    }
}

// A bit of the op-code.
#[tactic(auto, unfolding(crate::specs::Rise::code_rise))]
fn code_rise(f: Figure, seen: Seen, wp: Line, shift: u16) -> Risen
    ensures { result ≡ code_rise f seen wp shift }
{
    let taken = take_bit(shift, seen.si);
    match taken {
        Taken::Part(shift) => to_stage(seen, Stage::Code { wp, shift }),
        Taken::Whole(code) => open(f, seen, wp, code),
    }
}

// A bit of the upper address byte, where the part has two.
#[tactic(auto, unfolding(crate::specs::Rise::upper_rise))]
fn upper_rise(f: Figure, seen: Seen, purpose: Purpose, shift: u16) -> Risen
    ensures { result ≡ upper_rise f seen purpose shift }
{
    let taken = take_bit(shift, seen.si);
    match taken {
        Taken::Part(shift) => to_stage(seen, Stage::Upper { purpose, shift }),
        Taken::Whole(byte) => {
            let page = upper_page(f, byte);
            to_stage(
                seen,
                Stage::Lower {
                    purpose,
                    shift: NO_BITS,
                    page,
                },
            )
        }
    }
}

// A bit of the last address byte.
#[tactic(auto, unfolding(crate::specs::Rise::lower_rise))]
fn lower_rise(f: Figure, seen: Seen, purpose: Purpose, shift: u16, page: u32) -> Risen
    ensures { result ≡ lower_rise f seen purpose shift page }
{
    let taken = take_bit(shift, seen.si);
    match taken {
        Taken::Part(shift) => to_stage(
            seen,
            Stage::Lower {
                purpose,
                shift,
                page,
            },
        ),
        Taken::Whole(byte) => to_stage(seen, addressed(f, purpose, page, byte)),
    }
}

// The dummy byte after an FSTRD's address: whatever it is, output is next.
#[tactic(auto, unfolding(crate::specs::Rise::dummy_rise))]
fn dummy_rise(seen: Seen, shift: u16, at: usize) -> Risen
    ensures { result ≡ dummy_rise seen shift at }
{
    let taken = take_bit(shift, seen.si);
    match taken {
        Taken::Part(shift) => to_stage(seen, Stage::Dummy { shift, at }),
        Taken::Whole(_) => to_stage(
            seen,
            Stage::Ready {
                what: What::Array,
                at,
            },
        ),
    }
}

// Held back or not, the note names the address.
fn store_note(at: usize, byte: u8, verdict: Result<(), Reason>) -> Note
    ensures { result ≡ store_note at byte verdict }
{
    match verdict {
        Ok(()) => Note::Stored(at, byte),
        Err(reason) => Note::HeldBack(at, reason),
    }
}

// A data byte of a WRITE: stored or held back at its eighth rise, and the address steps. The order of the calls is timed (docs/SPEED.md).
#[tactic(auto, unfolding(crate::specs::Rise::write_rise))]
fn write_rise(f: Figure, seen: Seen, came: Came, shift: u16, last: u32, at: usize) -> Risen
    ensures { result ≡ write_rise f seen came shift last at }
{
    let taken = take_bit(shift, seen.si);
    let came = byte_came(came, shift, seen.wp);
    match taken {
        Taken::Part(shift) => to_stage(
            seen,
            Stage::Writing {
                came,
                shift,
                last,
                at,
            },
        ),
        Taken::Whole(byte) => {
            let verdict = may_store(f, seen.latch, seen.kept, came_up(came), at);
            let next = next_address(f, at);
            let note = store_note(at, byte, verdict);
            let last = last_by(last, at, verdict);
            Risen {
                stage: Stage::Writing {
                    came: Came::Bytes,
                    shift: NO_BITS,
                    last,
                    at: next,
                },
                latch: seen.latch,
                kept: seen.kept,
                note,
            }
        }
    }
}

// The first data byte of a WRSR: kept under the mask or held back at its eighth rise.
#[tactic(auto, unfolding(crate::specs::Rise::keep_rise))]
fn keep_rise(f: Figure, seen: Seen, wp: Line, shift: u16) -> Risen
    ensures { result ≡ keep_rise f seen wp shift }
{
    let wp = byte_wp(f, wp, shift, seen.wp);
    let taken = take_bit(shift, seen.si);
    match taken {
        Taken::Part(shift) => to_stage(seen, Stage::Keeping { wp, shift }),
        Taken::Whole(byte) => {
            let verdict = may_keep(f, seen.latch, seen.kept, is_up(wp));
            let stage = Stage::Over { end: End::Drops };
            match verdict {
                Ok(()) => {
                    let kept = byte & f.kept;
                    Risen {
                        stage,
                        latch: seen.latch,
                        kept,
                        note: Note::KeptSet(kept),
                    }
                }
                Err(reason) => Risen {
                    stage,
                    latch: seen.latch,
                    kept: seen.kept,
                    note: Note::KeptHeldBack(reason),
                },
            }
        }
    }
}

// "Each seen rise of SCK in an open select takes SI". What no rule names does nothing. One `_` for the stages that stay
// was slower: time it before you write one (docs/SPEED.md).
#[tactic(auto, unfolding(crate::specs::Rise::rise))]
pub fn rise(f: Figure, seen: Seen, stage: Stage) -> Risen
    ensures { result ≡ rise f seen stage }
{
    match stage {
        Stage::Closed => to_stage(seen, stage),
        Stage::Asleep => to_stage(seen, stage),
        Stage::Code { wp, shift } => code_rise(f, seen, wp, shift),
        Stage::Upper { purpose, shift } => upper_rise(f, seen, purpose, shift),
        Stage::Lower {
            purpose,
            shift,
            page,
        } => lower_rise(f, seen, purpose, shift, page),
        Stage::Dummy { shift, at } => dummy_rise(seen, shift, at),
        Stage::Ready { .. } => to_stage(seen, stage),
        Stage::ArrayOut { .. } => to_stage(seen, stage),
        Stage::StatusOut { .. } => to_stage(seen, stage),
        Stage::IdentOut { .. } => to_stage(seen, stage),
        Stage::SerialOut { .. } => to_stage(seen, stage),
        Stage::Writing {
            came,
            shift,
            last,
            at,
        } => write_rise(f, seen, came, shift, last, at),
        Stage::Keeping { wp, shift } => keep_rise(f, seen, wp, shift),
        Stage::Over { .. } => to_stage(seen, stage),
    }
}
