// The items of a trace as events.
ghost use Rattle.std.specs.Prelude.{◌≡◌, ◌-◌, ◌<◌, get_or, length};
ghost use Rattle.trace.specs.Items.{short_events, clocked};
ghost use Rattle.trace.specs.Figures.{last_byte, byte_events};

// The first and the last number that is a data byte, and the events of one. `specs/Figures.antt` has them for the definitions.
pub const FIRST_BYTE: u64 = 12;

pub const LAST_BYTE: u64 = 267;

const BYTE_EVENTS: u64 = 24;

// Event number `k` of a data byte. Bit 7 is sent first.
#[tactic(auto, using(crate::proofs::Pulses::si_beat, crate::proofs::Pulses::up_beat, crate::proofs::Pulses::down_beat))]
fn data_event(byte: u64, k: u64) -> u64
    requires { k < byte_events }
    ensures { result ≡ get_or (clocked byte) k 0 }
{
    match k % 3 {
        0 => 4 + ((byte >> (7 - k / 3)) & 1),
        1 => 3,
        _ => 2,
    }
}

// How many pulses of SCK an item is: the number less 267, and none where it is an event or a data byte.
pub fn pulses_of(item: u64) -> u64
    ensures { result ≡ item - last_byte }
{
    item.saturating_sub(LAST_BYTE)
}

// How many events an item is that is an event or a data byte.
#[tactic(auto, unfolding(crate::specs::Items::clocked))]
pub fn events_of(item: u64) -> u64
    ensures { result ≡ length (short_events item) }
{
    if item < FIRST_BYTE { 1 } else { BYTE_EVENTS }
}

// Event number `k` of such an item; 0 where it has no such event.
#[tactic(auto, using(crate::proofs::Pulses::past, crate::proofs::Pulses::sole, crate::proofs::Pulses::within, crate::proofs::Pulses::of_byte))]
pub fn event_of(item: u64, k: u64) -> u64
    ensures { result ≡ get_or (short_events item) k 0 }
{
    if events_of(item) <= k {
        return 0;
    }
    if item < FIRST_BYTE {
        return item;
    }
    data_event(item - FIRST_BYTE, k)
}
