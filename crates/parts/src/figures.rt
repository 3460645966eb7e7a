// The one table of the parts' figures. Every rule reads it; no part's number is tested anywhere else.
ghost use Rattle.std.specs.Prelude.{◌≡◌};
ghost use Rattle.parts.specs.Figures.{figure_of, fits_part, is_part, takes_serial};

use crate::commands::{Command, OPS, Op};

// How many identification bytes there are; zeros where a part has no RDID.
pub const IDENT: usize = 9;

// How many bytes a serial number has: "a serial number of eight bytes".
pub const SERIAL: usize = 8;

// Where 0 says none, it is a mask of no bits or a length of nothing, and the laws of the table speak of the number (`Rowed`,
// `Fair`): no Option.
#[derive(Clone, Copy)]
pub struct Figure {
    // Bytes of the array.
    pub size: usize,
    // The status bits that are kept without power, and the one that shows the latch.
    pub kept: u8,
    pub latch: u8,
    // Address bytes that follow the op-code.
    pub address_bytes: u8,
    // The bits of the upper address that are not ignored.
    pub upper: u8,
    // The bit of READ's and WRITE's op-code that is the top address bit; 0: none.
    pub top: u8,
    // Whether /WP low holds back the array.
    pub guards_array: bool,
    // The kept bit that must be set for /WP low to hold back the status byte; 0: none need be.
    pub enable: u8,
    // The block bits BP0 and BP1 of the status byte.
    pub bp0: u8,
    pub bp1: u8,
    // Dummy bytes that follow FSTRD's address: 1 or none.
    pub dummy: u8,
    // Whether /WP at the fall of /CS counts for a status byte, and not at the byte's first rise.
    pub wp_at_fall: bool,
    // The identification bytes that RDID shows.
    pub ident: [u8; IDENT],
    // Bytes of the serial number that SNR shows; 0: the part has none.
    pub serial: usize,
    // Bytes of a row, for whoever counts row cycles; 0: none are counted.
    pub row: usize,
    // Its op-codes with their commands.
    pub ops: [Op; OPS],
}

// The op-codes. READ_TOP and WRITE_TOP have the top address bit set; FILLER takes the room that a row does not use, and
// names nothing, as other op-codes do.
const WREN: Op = Op {
    code: 0x06,
    command: Command::Wren,
};

const WRDI: Op = Op {
    code: 0x04,
    command: Command::Wrdi,
};

const RDSR: Op = Op {
    code: 0x05,
    command: Command::Rdsr,
};

const WRSR: Op = Op {
    code: 0x01,
    command: Command::Wrsr,
};

const READ: Op = Op {
    code: 0x03,
    command: Command::Read,
};

const READ_TOP: Op = Op {
    code: 0x0B,
    command: Command::Read,
};

const FSTRD: Op = Op {
    code: 0x0B,
    command: Command::Fstrd,
};

const WRITE: Op = Op {
    code: 0x02,
    command: Command::Write,
};

const WRITE_TOP: Op = Op {
    code: 0x0A,
    command: Command::Write,
};

const SLEEP: Op = Op {
    code: 0xB9,
    command: Command::Sleep,
};

const RDID: Op = Op {
    code: 0x9F,
    command: Command::Rdid,
};

const SNR: Op = Op {
    code: 0xC3,
    command: Command::Snr,
};

const FILLER: Op = Op {
    code: 0x00,
    command: Command::Other,
};

const FM25L04: Figure = Figure {
    size: 512,
    kept: 0x0C,
    latch: 0x02,
    address_bytes: 1,
    upper: 0x01,
    top: 0x08,
    guards_array: true,
    enable: 0,
    bp0: 0x04,
    bp1: 0x08,
    dummy: 0,
    wp_at_fall: false,
    ident: [0; IDENT],
    serial: 0,
    row: 0,
    ops: [
        WREN, WRDI, RDSR, WRSR, READ, READ_TOP, WRITE, WRITE_TOP, FILLER, FILLER,
    ],
};

// "Parts 1 and 2 behave alike."
const FM25L04B: Figure = FM25L04;

const FM25C160: Figure = Figure {
    size: 2048,
    kept: 0x8C,
    latch: 0x02,
    address_bytes: 2,
    upper: 0x07,
    top: 0x00,
    guards_array: false,
    enable: 0x80,
    bp0: 0x04,
    bp1: 0x08,
    dummy: 0,
    wp_at_fall: false,
    ident: [0; IDENT],
    serial: 0,
    row: 4,
    ops: [
        WREN, WRDI, RDSR, WRSR, READ, WRITE, FILLER, FILLER, FILLER, FILLER,
    ],
};

const FM25V01: Figure = Figure {
    size: 16384,
    kept: 0x8C,
    latch: 0x02,
    address_bytes: 2,
    upper: 0x3F,
    top: 0x00,
    guards_array: false,
    enable: 0x80,
    bp0: 0x04,
    bp1: 0x08,
    dummy: 1,
    wp_at_fall: true,
    ident: [0x7F, 0x7F, 0x7F, 0x7F, 0x7F, 0x7F, 0xC2, 0x21, 0x00],
    serial: 0,
    row: 8,
    ops: [
        WREN, WRDI, RDSR, WRSR, READ, FSTRD, WRITE, SLEEP, RDID, FILLER,
    ],
};

// "This part is part 4 with C3h showing a serial number of eight bytes".
const FM25VN01: Figure = Figure {
    serial: SERIAL,
    ops: [WREN, WRDI, RDSR, WRSR, READ, FSTRD, WRITE, SLEEP, RDID, SNR],
    ..FM25V01
};

// A number that is no part's: no rule reads its row, since 1 or 4 is given before.
const NO_PART: Figure = FM25L04;

// How many rows there are; row 0 is no part's.
const ROWS: usize = 6;

pub const PARTS: [Figure; ROWS] = [NO_PART, FM25L04, FM25L04B, FM25C160, FM25V01, FM25VN01];

// The largest array's bytes, for whoever lends one to a part that is not known yet (`largest`, specs/FigureLaws).
pub const LARGEST: usize = 16384;

// Whether there is a part of this number. It is as wide as a caller's: other numbers have answers too.
pub fn is_part(part: u64) -> bool
    ensures { result ≡ is_part part }
{
    0 < part && part < PARTS.len() as u64
}

// A part's row; row 0 for a number that is no part's. By name: an index would build the whole table at each use.
#[tactic(auto, unfolding(crate::specs::Figures::figure_of))]
pub fn figure_of(part: u64) -> Figure
    ensures { result ≡ figure_of part }
{
    match part {
        1 => FM25L04,
        2 => FM25L04B,
        3 => FM25C160,
        4 => FM25V01,
        5 => FM25VN01,
        _ => NO_PART,
    }
}

// Whether an array of this length is the part's.
pub fn fits_part(part: u64, len: usize) -> bool
    ensures { result ≡ fits_part part len }
{
    let f = figure_of(part);
    len == f.size
}

// Whether a serial number of this length is the part's: any, where the part has none.
pub fn takes_serial(f: Figure, len: usize) -> bool
    ensures { result ≡ takes_serial f len }
{
    (f.serial == 0) | (len == f.serial)
}
