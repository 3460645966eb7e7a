// The stage of a select. Each stage holds what it needs and no more, so that little can be written down that no
// clocks give. Stages that take bits count seen rises; those that show bits count seen falls.
// The fields lie on one grid, chosen for speed: one byte, then a u16, then four bytes, then a usize, and no bool
// (docs/SPEED.md says why): time a change.

// A level, as a stage remembers it.
#[derive(Clone, Copy)]
pub enum Line {
    Down,
    Up,
}

// What a READ, an FSTRD or a WRITE wants its address for.
#[derive(Clone, Copy)]
pub enum Purpose {
    ToRead,
    ToReadFast,
    ToWrite,
}

// What is shown.
#[derive(Clone, Copy)]
pub enum What {
    Array,
    Status,
    Ident,
    Serial,
}

// What of a WRITE's data came: nothing whole yet, or at least one whole byte; and, in one byte with it, whether /WP was low at
// the first rise of the byte under way.
#[derive(Clone, Copy)]
pub enum Came {
    NoByte,
    NoByteLow,
    Bytes,
    BytesLow,
}

// What the close of a select does besides: nothing, or the latch drops, or the chip falls asleep.
#[derive(Clone, Copy)]
pub enum End {
    Quiet,
    Drops,
    Sleeps,
}

// `shift` is the bits of a byte that came so far, the newest lowest, with a 1 before them: 1 is none yet.
// The order of the cases is timed too (docs/SPEED.md): what a rise leaves alone stands first, what drives SO last.
#[derive(Clone, Copy)]
pub enum Stage {
    // No select is open.
    Closed,
    // No select is open, and the chip sleeps.
    Asleep,
    // Nothing more happens in this select.
    Over {
        end: End,
    },
    // The op-code. `wp` is /WP as it stood at the fall of /CS, where the part reads it there, else up.
    Code {
        wp: Line,
        shift: u16,
    },
    // The upper address byte, where the part has two.
    Upper {
        purpose: Purpose,
        shift: u16,
    },
    // The last address byte; page is what the address has above it.
    Lower {
        purpose: Purpose,
        shift: u16,
        page: u32,
    },
    // The dummy byte after an FSTRD's address, where the part has one.
    Dummy {
        shift: u16,
        at: usize,
    },
    // The header is whole, and its first fall is still to come.
    Ready {
        what: What,
        at: usize,
    },
    // WRSR's first data byte, and a WRITE's data. Each remembers /WP as it stood at the byte's first rise, up where no bit of
    // one came; WRSR's as it stood at the fall of /CS, where the part reads it there.
    Keeping {
        wp: Line,
        shift: u16,
    },
    // `last` is the byte that the select stored last (specs/Last.antt): its address and one, 0 for none.
    Writing {
        came: Came,
        shift: u16,
        last: u32,
        at: usize,
    },
    // Bit number `bit` of a byte stands on SO, at the level that it had at its fall.
    ArrayOut {
        level: Line,
        bit: u16,
        at: usize,
    },
    StatusOut {
        level: Line,
        bit: u16,
    },
    // A bit of the identification stands on SO.
    IdentOut {
        level: Line,
        bit: u16,
        at: usize,
    },
    // A bit of the serial number stands on SO.
    SerialOut {
        level: Line,
        bit: u16,
        at: usize,
    },
}
