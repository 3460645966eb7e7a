// A board of three different parts: chip 0 is part 1, chip 1 part 2 and chip 2 part 3; then one of parts 5, 1 and 5. Each line of
// the file `stdout` was worked out by hand from documents 01 and 02; the comment above a call says why. A text has four places an
// entry: `e21` is event 1 of chip 2, which at a shared line says nothing; `b06` clocks in the byte 06h, eight times SI, SCK up, SCK
// down. What is printed is the board's SO after an event, and after each fall of a byte: 0, 1, 2 released, 3 fight; or ! and the
// refusal.
#![tactic(auto)]

use board::chips::Board;
use board::event::{BoardAnswer, event};
use board::power::{Asked, Plan, power_up};
use console::{digit, say, write};
use pins::state::State;
use refusals::refusal::number_or_0;

fn main() {
    let mut array = [0u8; 3072];
    array[0] = 0x80;
    array[512] = 0xA5;
    let board = power(b"power-up", plan(3, 0x00, 3), &array);
    let mut rank = Rank {
        board,
        array: &mut array,
        serials: &[],
    };
    shown(&mut rank);
    written(&mut rank);
    bytes_written(&rank);
    cut(&mut rank);
    rank.say_byte(b"bytes: chip 2 ", 1024);
    write(b"\n");
    refused(&mut rank);
    not_this_slice(rank.board);
    refused_power_ups(&array);
    numbered();
}

// Chip 0 has its latch set. Its RDSR is open when chip 1 is selected too: the next eight clocks show chip 0's bits 6 to 0 of 02h
// and are chip 1's op-code, and at their last fall chip 0 releases SO and chip 1 shows bit 7 of 0Ch. Its other bits follow, then
// it releases SO.
// Two READs of address 0 from one op-code and address: 80h and A5h both begin with a 1, which is a fight all the same. Chip 0
// is held, so the clocks are chip 1's alone: bits 6 to 0 of A5h and bit 7 of the byte behind it. When /HOLD rises chip 0 shows its
// 1 again beside chip 1's 0. Chip 1 is closed, then chip 0.
fn shown(rank: &mut Rank) {
    rank.play(b"latch of chip 0 set", b"e00 b06 e01");
    rank.play(b"selects interleaved", b"e00 b05 e10 b05 b00 e01 e11");
    rank.play(b"two agree and fight", b"e00 e10 b03 b00");
    rank.play(b"held while another is read", b"e06 b00 e07 e11 e01");
}

// WREN to chips 0 and 2, then one WRITE to both: chip 0 has one address byte, so it takes 02h and 03h from 001h on; chip 2 has
// two and takes 03h at 102h. Nothing is shown.
fn written(rank: &mut Rank) {
    rank.play(
        b"both written",
        b"e00 e20 b06 e01 e21 e00 e20 b02 b01 b02 b03 e01 e21",
    );
}

// The bytes of that WRITE, and chip 1's at 001h and 102h, which did not see it.
fn bytes_written(rank: &Rank) {
    rank.say_byte(b"bytes: chip 0 ", 1);
    rank.say_byte(b" ", 2);
    rank.say_byte(b", chip 2 ", 1282);
    rank.say_byte(b", neighbours ", 513);
    rank.say_byte(b" ", 770);
    write(b"\n");
}

// WREN and a WRITE of 55h to 000h of chip 2; chip 1 is selected, and one clock of another byte comes; then VDD goes and comes,
// which every chip sees. The whole byte is stored. After it no select is open, and chip 2's RDSR shows its kept 80h with the latch
// off, with nobody else on the line.
fn cut(rank: &mut Rank) {
    rank.play(
        b"cut in a byte",
        b"e20 b06 e21 e20 b02 b00 b00 b55 e10 e03 e02 e0a e0b",
    );
    rank.play(b"after the cut", b"e20 b05 b00 e21");
}

// 6: with SCK high /HOLD may not move, of chip 0 or of chip 1. 7: chip 1's /CS moved in hold; back again it may rise. 5: 12 is no
// event, and 14 is for an own line only, so no such chip is not asked for. 14: chips count from 0, so of three there is no chip
// 3; SI is a shared line and moves for any number.
fn refused(rank: &mut Rank) {
    rank.play(b"six", b"e03 e06 e16 e02");
    rank.play(b"seven", b"e16 e10 e17 e11 e17");
    rank.play(b"five", b"e0c e3c");
    rank.play(b"fourteen", b"e30 e34");
}

// One byte short: 2 comes before 5 and after 14. No chip is a part 5, so one byte of serials is too many: 15, before 5 and after
// 14. Chip 2's kept bit 0 is outside the mask: 4 for any chip's event, after 14 and before 2 and 15. 13 comes before 14.
fn not_this_slice(board: Board) {
    let unsound = spoilt(board);
    let none = Board { count: 0, ..board };
    let nine = Board {
        count: 9,
        ..unsound
    };
    let one = &[0u8; 1];
    play(b"short slice", board, &mut [0u8; 3071], &[], b"e00 e0c e30");
    play(
        b"a byte of serials",
        board,
        &mut [0u8; 3072],
        one,
        b"e00 e0c e30",
    );
    play(b"unsound", unsound, &mut [0u8; 3072], &[], b"e00 e30");
    play(
        b"unsound, a byte of serials",
        unsound,
        &mut [0u8; 3072],
        one,
        b"e00",
    );
    play(
        b"unsound, short slice",
        unsound,
        &mut [0u8; 3071],
        &[],
        b"e0c",
    );
    play(b"no chips", none, &mut [0u8; 3072], &[], b"e34 e30");
    play(b"nine chips", nine, &mut [0u8; 3072], &[], b"e90");
}

// 13, 1, 2, 3, each over all chips: a part 9 behind kept bits outside the mask, on a slice that is too short, is 1; the slice is 2,
// before those kept bits; they are 3. What is returned has no chips.
fn refused_power_ups(array: &[u8]) {
    power(b"power-up of none", plan(0, 0x01, 9), &[0u8; 1]);
    power(b"power-up of nine", plan(9, 0x01, 9), array);
    power(b"a part 9 last", plan(3, 0x01, 9), &[0u8; 1]);
    power(b"a slice too short", plan(3, 0x01, 3), &[0u8; 3071]);
    let board = power(b"kept bits first", plan(3, 0x01, 3), array);
    play(b"what it returns", board, &mut [0u8; 3072], &[], b"e34");
}

// "eight bytes for each part 5 chip in chip order": the second eight are chip 2's, FEh to 10h. Its SNR shows bit 7 of FEh at the last
// fall of C3h, then each byte's other bits and bit 7 of the next, and releases SO after the last. Chip 0's begins with 01h and 23h.
// Chip 1 is part 1, where C3h does nothing. Both part 5 chips at once fight; when chip 0 is closed, chip 2 shows bit 7 of DCh.
fn numbered() {
    let mut array = [0u8; 33280];
    let board = power(b"power-up of parts 5, 1 and 5", fives(), &array);
    let mut rank = Rank {
        board,
        array: &mut array,
        serials: b"\x01\x23\x45\x67\x89\xAB\xCD\xEF\xFE\xDC\xBA\x98\x76\x54\x32\x10",
    };
    rank.play(
        b"serial number of chip 2",
        b"e20 bc3 b00 b00 b00 b00 b00 b00 b00 b00 e21",
    );
    rank.play(b"and of chip 0", b"e00 bc3 b00 e01");
    rank.play(b"and of part 1", b"e10 bc3 b00 e11");
    rank.play(b"both at once", b"e00 e20 bc3 b00 e01 e21");
    fifteen(rank.board);
    fifteen_with_power_off(rank.board);
}

// 16 bytes and no other number, for an own line and for a shared one. 15 comes before 5, after 14 and after 2.
fn fifteen(board: Board) {
    let few = &[0u8; 15];
    play(
        b"fifteen bytes",
        board,
        &mut [0u8; 33280],
        few,
        b"e00 e04 e0c e30",
    );
    play(
        b"and a short slice",
        board,
        &mut [0u8; 33279],
        few,
        b"e00 e30",
    );
    play(
        b"seventeen bytes",
        board,
        &mut [0u8; 33280],
        &[0u8; 17],
        b"e20 e04",
    );
}

// It is given with power off too.
fn fifteen_with_power_off(board: Board) {
    let mut array = [0u8; 33280];
    let off = play(b"power off", board, &mut array, &[0u8; 16], b"e0a");
    play(
        b"fifteen bytes, power off",
        off,
        &mut array,
        &[0u8; 15],
        b"e04",
    );
}

fn fives() -> Plan {
    let mut chips = [Asked { part: 5, kept: 0 }; 8];
    chips[1] = Asked { part: 1, kept: 0 };
    Plan { count: 3, chips }
}

// Parts 1, 2 and the last one, with kept bits 0Ch on the second and 80h on the last.
fn plan(count: usize, kept: u64, last: u64) -> Plan {
    let mut chips = [Asked { part: 1, kept }; 8];
    chips[1] = Asked {
        part: 2,
        kept: 0x0C,
    };
    chips[2] = Asked {
        part: last,
        kept: 0x80,
    };
    Plan { count, chips }
}

fn power(name: &[u8], plan: Plan, array: &[u8]) -> Board {
    let powered = power_up(plan, array);
    write(name);
    say(b": refused ", u64::from(number_or_0(powered.refusal)));
    say(b", chips ", powered.board.count as u64);
    write(b"\n");
    powered.board
}

fn spoilt(board: Board) -> Board {
    let mut chips = board.chips;
    chips[2] = State {
        kept: 1,
        ..chips[2]
    };
    Board { chips, ..board }
}

// A board's chips, with the slice and the serials that are lent to them.
#[derive(Drop)]
struct Rank<'a> {
    board: Board,
    array: &'a mut [u8],
    serials: &'a [u8],
}

impl Rank<'_> {
    // The entries of a text one after the other, and what each showed.
    fn play(&mut self, name: &[u8], text: &[u8]) {
        write(name);
        write(b":");
        for entry in text.split(|byte| *byte == b' ') {
            write(b" ");
            self.enter(entry);
        }
        write(b"\n");
    }

    fn enter(&mut self, entry: &[u8]) {
        let [kind, first, second] = *entry else {
            return;
        };
        match (kind, digit(first), digit(second)) {
            (b'b', Some(high), Some(low)) => self.byte(u64::from(high << 4 | low)),
            (b'e', Some(chip), Some(code)) => self.one(usize::from(chip), u64::from(code)),
            _ => {}
        }
    }

    // One event.
    fn send(&mut self, chip: usize, code: u64) -> BoardAnswer {
        let answer = event(self.board, self.array, self.serials, chip, code);
        self.board = answer.board;
        answer
    }

    // One event, and what it showed.
    fn one(&mut self, chip: usize, code: u64) {
        let answer = self.send(chip, code);
        match answer.refusal {
            None => say(b"", u64::from(u8::from(answer.so))),
            Some(refusal) => say(b"!", u64::from(u8::from(refusal))),
        }
    }

    // Eight times SI, SCK up, SCK down.
    fn byte(&mut self, value: u64) {
        for bit in 0..8u32 {
            self.send(0, 4 + (value >> (7 - bit) & 1));
            self.send(0, 3);
            self.one(0, 2);
        }
    }

    // A word, and the byte at a place of the slice.
    fn say_byte(&self, word: &[u8], at: usize) {
        if let Some(byte) = self.array.get(at) {
            say(word, u64::from(*byte));
        }
    }
}

// A text on a board with what is lent to it, and the board that is left.
fn play(name: &[u8], board: Board, array: &mut [u8], serials: &[u8], text: &[u8]) -> Board {
    let mut rank = Rank {
        board,
        array,
        serials,
    };
    rank.play(name, text);
    rank.board
}
