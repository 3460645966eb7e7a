// Long runs of pulses in traces (document 02, Wish 7), in two lists of cases.
//
// By sums and one by one: a trace with the item of a run, and the same trace with an event for each edge of it, have one
// report. A case is what comes before the run and what comes after it; the runs are of 1 to 5,000 pulses. That the reports
// are the same is proved (crates/pulses); here it is seen too.
//
// The longest: some bytes, then FF FF FF 7F, which is 268,435,188 pulses, as often as 32,768 bytes allow. Each report in the
// file `stdout` was worked out by hand; the comment above a call says how.
#![tactic(auto)]

use bench::replay::replay;
use bench::text::report;
use console::write;
use trace::items::LAST_BYTE;
use trace::number::write_at;
use trace::reader::MOST_BYTES;

// Room for the report of a case.
const REPORT: usize = 4096;

// How many lengths of a run there are: each up to 80, then every 485th up to 5,000.
const LENGTHS: u32 = 90;

fn main() {
    unseen();
    headers();
    reads();
    stores();
    guards();
    others();
    quiet();
    busy();
}

// Bytes into a trace from a place on. What there is no room for is left out.
fn put(trace: &mut [u8; MOST_BYTES], at: usize, bytes: &[u8]) -> usize {
    let mut next = at;
    for &byte in bytes {
        if next < MOST_BYTES {
            trace[next] = byte;
            next += 1;
        }
    }
    next
}

// So many pulses as one item.
fn put_run(trace: &mut [u8; MOST_BYTES], at: usize, pulses: u32) -> usize {
    match write_at(trace, at, u64::from(pulses) + LAST_BYTE) {
        Ok(next) => next,
        Err(refused) => refused.at,
    }
}

// The same, edge by edge.
fn put_edges(trace: &mut [u8; MOST_BYTES], at: usize, pulses: u32) -> usize {
    let mut next = at;
    for _ in 0..pulses {
        next = put(trace, next, b"\x03\x02");
    }
    next
}

// The longest run as often as there is room for it.
fn put_longest(trace: &mut [u8; MOST_BYTES], at: usize) -> usize {
    let mut next = at;
    for _ in 0..MOST_BYTES / 4 {
        if next <= MOST_BYTES - 4 {
            next = put(trace, next, b"\xFF\xFF\xFF\x7F");
        }
    }
    next
}

// The report of the first bytes of a trace.
fn report_of(trace: &[u8; MOST_BYTES], len: usize, out: &mut [u8; REPORT]) -> usize {
    if len <= MOST_BYTES {
        report(&trace[..len], out)
    } else {
        0
    }
}

// Whether a run of so many pulses gives one report in both ways.
fn agrees(before: &[u8], pulses: u32, after: &[u8], reads: &[u8]) -> bool {
    let mut trace = [0u8; MOST_BYTES];
    let mut by_sums = [0u8; REPORT];
    let mut by_edges = [0u8; REPORT];
    let start = put(&mut trace, 0, before);
    let run = put_run(&mut trace, start, pulses);
    let rest = put(&mut trace, run, after);
    let end = put(&mut trace, rest, reads);
    let m = report_of(&trace, end, &mut by_sums);
    let run = put_edges(&mut trace, start, pulses);
    let rest = put(&mut trace, run, after);
    let end = put(&mut trace, rest, reads);
    let n = report_of(&trace, end, &mut by_edges);
    m == n && by_sums == by_edges
}

// Length number `k`.
fn length(k: u32) -> u32 {
    if k < 80 {
        return k + 1;
    }
    if k < LENGTHS { 150 + (k - 79) * 485 } else { 0 }
}

fn title(text: &[u8]) {
    write(b"== ");
    write(text);
    write(b"\n");
}

// Whether runs of every length do.
fn all_agree(before: &[u8], after: &[u8], reads: &[u8]) -> bool {
    (0..LENGTHS).all(|k| agrees(before, length(k), after, reads))
}

// What is said of one case.
fn case(name: &[u8], before: &[u8], after: &[u8], reads: &[u8]) {
    title(name);
    write(if all_agree(before, after, reads) {
        b"the same\n"
    } else {
        b"not the same\n"
    });
}

// A case on part 1 or 2, and one on parts 3 to 5, whose address has two bytes. Both end with a byte 5Ah, the close of the select,
// and READs of the first 64 bytes and of the last 64; 8B 06 is 512 pulses.
fn narrow(name: &[u8], before: &[u8], after: &[u8]) {
    let reads = b"\x66\x01\x00\x0F\x0C\x8B\x06\x01\x00\x17\xCC\x01\x8B\x06\x01";
    case(name, before, after, reads);
}

fn wide(name: &[u8], before: &[u8], after: &[u8]) {
    let reads = b"\x66\x01\x00\x0F\x0C\x0C\x8B\x06\x01\x00\x0F\x4B\xCC\x01\x8B\x06\x01";
    case(name, before, after, reads);
}

// The report of some bytes with the longest runs behind them.
fn longest(name: &[u8], before: &[u8]) {
    let mut trace = [0u8; MOST_BYTES];
    title(name);
    let start = put(&mut trace, 0, before);
    let len = put_longest(&mut trace, start);
    if len <= MOST_BYTES {
        replay(&trace[..len]);
    }
}

// No select sees the run.
fn unseen() {
    narrow(b"no select", b"\x01\x00", b"");
    narrow(b"no select, SI high", b"\x01\x00\x05", b"");
    narrow(b"no select, SCK high", b"\x01\x00\x03", b"");
    narrow(b"power off", b"\x01\x00\x00\x12\x0A", b"\x0B");
    narrow(b"hold, no select", b"\x01\x00\x06", b"\x07");
    narrow(b"hold, op-code", b"\x01\x00\x00\x03\x02\x06", b"\x07");
}

// Op-codes, whole and in the making, and addresses.
fn headers() {
    narrow(b"op-code", b"\x01\x00\x00", b"");
    narrow(b"op-code, SI high", b"\x01\x00\x05\x00", b"");
    narrow(b"op-code, SCK high", b"\x01\x00\x03\x00", b"");
    narrow(
        b"op-code, three bits",
        b"\x01\x00\x00\x03\x02\x03\x02\x03\x02",
        b"",
    );
    narrow(b"WREN", b"\x01\x00\x00\x12", b"");
    narrow(b"unknown op-code", b"\x01\x00\x00\x8B\x02", b"");
    narrow(b"address", b"\x01\x00\x00\x0F", b"");
    wide(b"upper address", b"\x03\x00\x00\x0F", b"");
    wide(b"lower address", b"\x03\x00\x00\x12\x01\x00\x0E\x0C", b"");
}

// What drives SO. The READs of part 1 begin at 00, 5A, FF and 01, which a WRITE put there; 83 06 is 504 pulses, the first 63
// bytes, and 8F 06 is 516, 64 bytes and four bits. On part 3 the address is 7FEh, on part 4 3FFEh.
fn reads() {
    narrow(
        b"READ",
        b"\x01\x00\x00\x12\x01\x00\x0E\x0C\x0C\x66\x8B\x02\x0D\x01\x00\x0F\x0C",
        b"",
    );
    narrow(
        b"READ, SCK high",
        b"\x01\x00\x00\x12\x01\x00\x0E\x0C\x0C\x66\x8B\x02\x0D\x01\x00\x0F\x0C\x03",
        b"",
    );
    narrow(
        b"READ, 63 bytes on",
        b"\x01\x00\x00\x12\x01\x00\x0E\x0C\x0C\x66\x8B\x02\x0D\x01\x00\x0F\x0C\x83\x06",
        b"",
    );
    narrow(
        b"READ, 64 bytes and four bits on",
        b"\x01\x00\x00\x12\x01\x00\x0E\x0C\x0C\x66\x8B\x02\x0D\x01\x00\x0F\x0C\x8F\x06",
        b"",
    );
    narrow(
        b"READ, hold",
        b"\x01\x00\x00\x12\x01\x00\x0E\x0C\x0C\x66\x8B\x02\x0D\x01\x00\x0F\x0C\x03\x02\x06",
        b"\x07",
    );
    wide(b"READ, rolls over", b"\x03\x00\x00\x0F\x13\x8A\x02", b"");
    wide(b"FSTRD, dummy byte", b"\x04\x00\x00\x17\x4B\x8A\x02", b"");
    wide(b"FSTRD", b"\x04\x00\x00\x17\x4B\x8A\x02\x0C", b"");
    narrow(b"RDSR", b"\x01\x0C\x00\x11", b"");
    wide(b"RDID", b"\x04\x00\x00\xAB\x01", b"");
    wide(b"SNR", b"\x05\x00\x00\xCF\x01", b"");
}

// WRITE, stored. SI is low behind the address; for FF the whole array is first made 00 (8B 22 is 4,096 pulses). With the
// three bits a byte is E0h. The addresses of parts 3 and 4 are their last but one.
fn stores() {
    narrow(b"WRITE", b"\x01\x00\x00\x12\x01\x00\x0E\x0C", b"");
    narrow(
        b"WRITE, SI high",
        b"\x01\x00\x00\x12\x01\x00\x0E\x0C\x8B\x22\x01\x00\x12\x01\x00\x0E\x0C\x05",
        b"",
    );
    narrow(
        b"WRITE, three bits",
        b"\x01\x00\x00\x12\x01\x00\x0E\x0C\x05\x03\x02\x03\x02\x03\x02\x04",
        b"",
    );
    narrow(
        b"WRITE, hold",
        b"\x01\x00\x00\x12\x01\x00\x0E\x0C\x03\x02\x06",
        b"\x07",
    );
    wide(
        b"WRITE, rolls over",
        b"\x03\x00\x00\x12\x01\x00\x0E\x13\x8A\x02",
        b"",
    );
    wide(
        b"part 4, WRITE, rolls over",
        b"\x04\x00\x00\x12\x01\x00\x0E\x4B\x8A\x02",
        b"",
    );
}

// WRITE, held back: by the latch, by /WP, which a byte has from its first bit, and by blocks. 0A 70 is 170h, 02 03 F0 3F0h.
fn guards() {
    narrow(b"WRITE, latch off", b"\x01\x00\x00\x0E\x0C", b"");
    narrow(
        b"WRITE, /WP low",
        b"\x01\x00\x00\x12\x01\x08\x00\x0E\x0C",
        b"",
    );
    narrow(
        b"WRITE, /WP low for one byte",
        b"\x01\x00\x00\x12\x01\x00\x0E\x0C\x08\x03\x02\x09",
        b"",
    );
    narrow(
        b"WRITE, /WP low after one byte",
        b"\x01\x00\x00\x12\x01\x00\x0E\x0C\x03\x02\x08",
        b"",
    );
    narrow(
        b"WRITE, a quarter guarded",
        b"\x01\x04\x00\x12\x01\x00\x16\x7C",
        b"",
    );
    narrow(
        b"WRITE, all guarded",
        b"\x01\x0C\x00\x12\x01\x00\x0E\x0C",
        b"",
    );
    wide(
        b"WRITE, half guarded",
        b"\x03\x08\x00\x12\x01\x00\x0E\x0F\xFC\x01",
        b"",
    );
}

// WRSR, where SI is high behind the op-code, and part 4's sleep.
fn others() {
    narrow(b"WRSR", b"\x01\x00\x00\x12\x01\x00\x0D", b"");
    narrow(b"WRSR, SI low", b"\x01\x0C\x00\x12\x01\x00\x0D\x04", b"");
    narrow(
        b"WRSR, past its byte",
        b"\x01\x00\x00\x12\x01\x00\x0D\x18",
        b"",
    );
    wide(b"SLEEP", b"\x04\x00\x00\xC5\x01", b"");
    wide(b"asleep", b"\x04\x00\x00\xC5\x01\x01", b"");
    wide(b"waking select", b"\x04\x00\x00\xC5\x01\x01\x00", b"");
}

// 268,435,188 is 2^28 less 268, so that 8,191 of them are 2,198,752,624,908 pulses, 8,190 of them 2,198,484,189,720. No select sees
// them; or one that is over counts them, past the eight clocks of its op-code. WRSR keeps FFh under the mask 8Ch.
fn quiet() {
    longest(b"longest, no select", b"\x04\x00");
    longest(b"longest, hold", b"\x04\x00\x00\x06");
    longest(b"longest, power off", b"\x04\x00\x0A");
    longest(b"longest, unknown op-code", b"\x01\x00\x00");
    longest(b"longest, WRSR", b"\x04\x00\x00\x12\x01\x00\x0D");
    longest(b"longest, RDID", b"\x04\x00\x00\xAB\x01");
    longest(b"longest, waking select", b"\x04\x00\x00\xC5\x01\x01\x00");
}

// 8,189 of them are 2,198,215,754,532 pulses: 274,776,969,316 bytes and four bits. That is 16,771,055 rounds of 16,384 bytes and
// 4,196 bytes: with the upper half guarded 16,771,055 * 8,192 + 4,196 are stored.
fn busy() {
    longest(b"longest, READ", b"\x04\x00\x00\x0F\x0C\x0C");
    longest(b"longest, WRITE", b"\x04\x00\x00\x12\x01\x00\x0E\x0C\x0C");
    longest(b"longest, WRITE, latch off", b"\x04\x00\x00\x0E\x0C\x0C");
    longest(
        b"longest, WRITE, half guarded",
        b"\x04\x08\x00\x12\x01\x00\x0E\x0C\x0C",
    );
}
