// The lines of the report, printed on a page.
ghost use Rattle.std.specs.Prelude.{◌≡◌, length};
ghost use Rattle.report.specs.Record.{most_shown};
ghost use Rattle.report.specs.Lines.{code_text, shown_text, part_line, counts_text, select_line, end_line};
ghost use Rattle.report.specs.Prints.{Prints};

use crate::page::Page;
use crate::record::{CODE_CLOCKS, Record, SHOWN};

// The most bytes of a line (`specs/LineLaws.antt`).
pub const LINE: usize = 256;

impl Page<'_> {
    // "op-code in hex, or "--" under eight clocks", and in a select that is ignored.
    #[tactic(auto, unfolding(crate::specs::Lines::code_text))]
    fn print_code(&mut self, ignored: bool, clocks: u64, code: u8)
        ensures { Prints self.old (code_text ignored clocks code) self.new }
    {
        if ignored | (clocks < CODE_CLOCKS) {
            self.print(b"--");
        } else {
            self.print_hex(code);
        }
    }

    // The whole bytes of SO, the first of which are lent.
    #[tactic(auto, unfolding(crate::specs::Lines::shown_text))]
    fn print_shown(&mut self, shown: &[u8], whole: u64)
        requires { length shown.now ≡ most_shown }
        ensures { Prints self.old (shown_text shown.now whole) self.new }
    {
        if whole == 0 {
            self.print(b"-");
        } else if whole <= SHOWN as u64 {
            self.print_hexes(&shown[..whole as usize]);
        } else {
            self.print_hexes(shown);
            self.print(b"+");
        }
    }

    // The op-code, seen rises and stored notes of a select.
    #[tactic(auto, unfolding(crate::specs::Lines::counts_text))]
    fn print_counts(&mut self, told: Record)
        ensures { Prints self.old (counts_text told) self.new }
    {
        self.print(b" op ");
        self.print_code(told.ignored, told.clocks, told.code);
        self.print_numbered(b" clocks ", told.clocks);
        self.print_numbered(b" stored ", told.stored);
    }

    // "Line 1: part, size, kept bits in hex".
    #[tactic(auto, unfolding(crate::specs::Lines::part_line))]
    pub fn print_part(&mut self, part: u64, size: u64, kept: u8)
        ensures { Prints self.old (part_line part size kept) self.new }
    {
        self.print_numbered(b"part ", part);
        self.print_numbered(b" bytes ", size);
        self.print(b" kept ");
        self.print_hex(kept);
        self.print(b"\n");
    }

    // A select's line, by its number, its record and the first bytes of SO.
    #[tactic(auto, unfolding(crate::specs::Lines::select_line))]
    pub fn print_select(&mut self, number: u64, told: Record, shown: &[u8; SHOWN])
        ensures { Prints self.old (select_line number told shown.now) self.new }
    {
        self.print_numbered(b"sel ", number);
        self.print(b" so ");
        self.print_shown(shown, told.shown);
        self.print_counts(told);
        self.print(b"\n");
    }

    // "Last line: kept bits in hex (00 before power-up), latch (0 before power-up), refusal."
    #[tactic(auto, unfolding(crate::specs::Lines::end_line))]
    pub fn print_end(&mut self, kept: u8, latch: bool, refusal: u8)
        ensures { Prints self.old (end_line kept latch refusal) self.new }
    {
        self.print(b"end kept ");
        self.print_hex(kept);
        self.print_numbered(b" latch ", u64::from(latch));
        self.print_numbered(b" refused ", u64::from(refusal));
        self.print(b"\n");
    }
}
