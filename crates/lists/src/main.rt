// Lists of events at once, on part 1 with 80h at address 0, and on part 5. Each line of the file `stdout` was worked out by hand from
// documents 01 and 02; the comment above a call says why. Every place of the answers held 9 before the call.
#![tactic(auto)]

use chip::list::{Listed, events};
use console::{say, write};
use pins::state::State;
use refusals::refusal::number_or_0;
use supply::power::power_up;

fn main() {
    let mut array = [0u8; 512];
    array[0] = 0x80;
    let powered = power_up(1, 0, &array);
    middle(powered.state, &mut array);
    let latch = stored(enabled(powered.state, &mut array), &mut array);
    say(b"address 0 holds ", u64::from(array[0]));
    say(b", latch ", u64::from(latch));
    write(b"\n");
    short_array(powered.state);
    answer_places(powered.state);
    serial_numbers();
}

// READ from 000: the select, the op-code, the address; bit 7 is shown at the header's last fall, bit 6 one clock on. Then 12,
// no event. So 51 are accepted: SO is released 48 times, then 1, 1, 0. The place of the refused event, the one behind it and a
// spare one stay. In the state that they made the select is still open and shows bit 6; /CS closes it.
fn middle(state: State, array: &mut [u8]) {
    let codes = b"043243243243243243253253243243243243243243243243232c1".map(code_of);
    let listed = send(
        b"refused in the middle",
        state,
        array,
        &codes,
        &mut [9u8; 54],
    );
    send(
        b"and on from there",
        listed.state,
        array,
        &[4, 1],
        &mut [9u8; 2],
    );
}

// WREN: the latch is set.
fn enabled(state: State, array: &mut [u8]) -> State {
    let codes = b"04324324324324325325324321".map(code_of);
    let listed = send(b"latch set", state, array, &codes, &mut [9u8; 26]);
    listed.state
}

// A WRITE of 5Ah to 000 whose select is left open. Then 6 lowers /HOLD with SCK high: refused after the select, three bytes of
// 24 events and one clock. The byte is stored at its eighth rise; the latch has not dropped.
fn stored(state: State, array: &mut [u8]) -> bool {
    let codes = b"0432432432432432432532432432432432432432432432432432532432532532432532432361".map(
        code_of,
    );
    let listed = send(
        b"stored before a refusal",
        state,
        array,
        &codes,
        &mut [9u8; 76],
    );
    listed.state.latch
}

// 2 comes even for an empty list, and before 12.
fn short_array(state: State) {
    let mut short = [0u8; 511];
    send(b"empty, short array", state, &mut short, &[], &mut [9u8; 2]);
    send(b"short array, no answers", state, &mut short, &[0], &mut []);
    // 4 comes first: bit 0 is no kept bit.
    let unsound = State { kept: 1, ..state };
    send(b"unsound, short array", unsound, &mut short, &[0], &mut []);
}

// 12 comes before the events: 12, no event, is not reached.
fn answer_places(state: State) {
    let mut array = [0u8; 512];
    send(b"empty", state, &mut array, &[], &mut [9u8; 2]);
    send(
        b"more answers than events",
        state,
        &mut array,
        &[0],
        &mut [9u8; 2],
    );
    send(
        b"fewer answers than events",
        state,
        &mut array,
        &[12, 0],
        &mut [9u8; 1],
    );
}

// SNR on part 5, and two clocks: SO is released until the op-code's last fall, which shows bit 7 of A5; then bits 6 and 5, 1, 0, 1,
// each from its fall over the rise that follows. Seven serial bytes are 15, even for an empty list, and before 12.
fn serial_numbers() {
    let mut array = [0u8; 16384];
    let powered = power_up(5, 0, &array);
    let codes = b"05325324324324324325325323232".map(code_of);
    let own = [0xA5u8, 0, 0, 0, 0, 0, 0, 0];
    let state = powered.state;
    send_as(
        b"a serial number",
        state,
        &mut array,
        &own,
        &codes,
        &mut [9u8; 29],
    );
    send_as(
        b"empty, short serial",
        state,
        &mut array,
        &own[..7],
        &[],
        &mut [9u8; 1],
    );
    send_as(
        b"short serial, no answers",
        state,
        &mut array,
        &own[..7],
        &[0],
        &mut [],
    );
}

// One call with no serial number, and what it left.
fn send(name: &[u8], state: State, array: &mut [u8], codes: &[u64], levels: &mut [u8]) -> Listed {
    send_as(name, state, array, &[], codes, levels)
}

// One call, and what it left.
fn send_as(
    name: &[u8],
    state: State,
    array: &mut [u8],
    serial: &[u8],
    codes: &[u64],
    levels: &mut [u8],
) -> Listed {
    let listed = events(state, array, serial, codes, levels);
    write(name);
    say(b": refused ", u64::from(number_or_0(listed.refusal)));
    say(b" count ", listed.count as u64);
    write(b" so ");
    for level in levels {
        say(b"", u64::from(*level));
    }
    write(b"\n");
    listed
}

// The code that a hex digit says; where it is none, 16, no event.
fn code_of(digit: u8) -> u64 {
    char::from(digit).to_digit(16).map_or(16, u64::from)
}
