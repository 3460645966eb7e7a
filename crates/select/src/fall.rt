// A seen fall of SCK in a select: output moves.
ghost use Rattle.std.specs.Prelude.{◌≡◌, get_or};
ghost use Rattle.select.specs.Fall.{status_byte, show_array, show_status, show_ident, place_after, show_serial, fall, stage_level};

use crate::notes::Level;
use parts::figures::{Figure, IDENT};
use stages::address::next_address;
use stages::bits::bit_of;
use stages::stage::{End, Stage, What};

// The status byte that RDSR shows.
pub fn status_byte(f: Figure, kept: u8, latch: bool) -> u8
    ensures { result ≡ status_byte f kept latch }
{
    if latch { kept | f.latch } else { kept }
}

// The byte at an address, as the array is lent to this call; past its end 0. By `get` a fall costs more (docs/SPEED.md).
fn byte_at(array: &[u8], at: usize) -> u8
    ensures { result ≡ get_or array.now at 0 }
{
    if at < array.len() { array[at] } else { 0 }
}

// One bit of the array put on SO. What is shown has a function each: one over `What` costs every event more (docs/SPEED.md).
#[tactic(auto, unfolding(crate::specs::Fall::show_array))]
fn show_array(array: &[u8], at: usize, bit: u16) -> Stage
    ensures { result ≡ show_array array.now at bit }
{
    let byte = byte_at(array, at);
    let level = bit_of(byte, bit);
    Stage::ArrayOut { level, bit, at }
}

// One bit of the status byte put on SO.
#[tactic(auto, unfolding(crate::specs::Fall::show_status))]
fn show_status(status: u8, bit: u16) -> Stage
    ensures { result ≡ show_status status bit }
{
    let level = bit_of(status, bit);
    Stage::StatusOut { level, bit }
}

// One bit of the identification put on SO.
#[tactic(auto, unfolding(crate::specs::Fall::show_ident))]
fn show_ident(f: Figure, at: usize, bit: u16) -> Stage
    ensures { result ≡ show_ident f at bit }
{
    let ident = f.ident;
    let device = byte_at(&ident, at);
    let level = bit_of(device, bit);
    Stage::IdentOut { level, bit, at }
}

// One bit of the serial number, as it is lent to this call, put on SO.
#[tactic(auto, unfolding(crate::specs::Fall::show_serial))]
fn show_serial(serial: &[u8], at: usize, bit: u16) -> Stage
    ensures { result ≡ show_serial serial.now at bit }
{
    let byte = byte_at(serial, at);
    let level = bit_of(byte, bit);
    Stage::SerialOut { level, bit, at }
}

// The place after this one, of so many bytes that are shown once.
fn place_after(count: usize, at: usize) -> Option<usize>
    ensures { result ≡ place_after count at }
{
    if at < count && at + 1 < count {
        Some(at + 1)
    } else {
        None
    }
}

// "Output moves on a seen fall of SCK once the header is whole." Every other stage stays.
#[tactic(auto, unfolding(crate::specs::Fall::fall, crate::specs::Fall::next_ident, crate::specs::Fall::next_serial))]
pub fn fall(f: Figure, array: &[u8], serial: &[u8], status: u8, stage: Stage) -> Stage
    ensures { result ≡ fall f serial.now array.now status stage }
{
    match stage {
        Stage::Ready { what, at } => match what {
            What::Array => show_array(array, at, 7),
            What::Status => show_status(status, 7),
            What::Ident => show_ident(f, at, 7),
            What::Serial => show_serial(serial, at, 7),
        },
        Stage::ArrayOut { bit, at, .. } => {
            if bit == 0 {
                show_array(array, next_address(f, at), 7)
            } else {
                show_array(array, at, bit - 1)
            }
        }
        Stage::StatusOut { bit, .. } => {
            if bit == 0 {
                Stage::Over { end: End::Quiet }
            } else {
                show_status(status, bit - 1)
            }
        }
        Stage::IdentOut { bit, at, .. } => {
            if bit == 0 {
                match place_after(IDENT, at) {
                    Some(next) => show_ident(f, next, 7),
                    None => Stage::Over { end: End::Quiet },
                }
            } else {
                show_ident(f, at, bit - 1)
            }
        }
        Stage::SerialOut { bit, at, .. } => {
            if bit == 0 {
                match place_after(f.serial, at) {
                    Some(next) => show_serial(serial, next, 7),
                    None => Stage::Over { end: End::Quiet },
                }
            } else {
                show_serial(serial, at, bit - 1)
            }
        }
        _ => stage,
    }
}

// The level that a select puts on SO. The stages are named: one arm for all that drive it costs every event more (docs/SPEED.md).
pub fn stage_level(stage: Stage) -> Level
    ensures { result ≡ stage_level stage }
{
    match stage {
        Stage::Closed => Level::Released,
        Stage::Asleep => Level::Released,
        Stage::Code { .. } => Level::Released,
        Stage::Upper { .. } => Level::Released,
        Stage::Lower { .. } => Level::Released,
        Stage::Dummy { .. } => Level::Released,
        Stage::Ready { .. } => Level::Released,
        Stage::ArrayOut { level, .. } => Level::from(level),
        Stage::StatusOut { level, .. } => Level::from(level),
        Stage::IdentOut { level, .. } => Level::from(level),
        Stage::SerialOut { level, .. } => Level::from(level),
        Stage::Writing { .. } => Level::Released,
        Stage::Keeping { .. } => Level::Released,
        Stage::Over { .. } => Level::Released,
    }
}
