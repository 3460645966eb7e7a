// A page that text is printed on: a lent slice, cut where it ends.
ghost use Rattle.std.specs.Prelude.{◌≡◌, ◌<◌, get_or};
ghost use Rattle.report.specs.Text.{capitals, hex, hexes, decimal};
ghost use Rattle.report.specs.Lines.{numbered};
ghost use Rattle.report.specs.Page.{page_of};
ghost use Rattle.report.specs.Prints.{Prints, page_in};

// The most digits of a number; `specs/Text.antt` has it for the definitions.
const DIGITS: usize = 20;

// "Hex is two capital digits a byte".
const CAPITALS: [u8; 16] = *b"0123456789ABCDEF";

// The capital digit of a number below 16.
#[tactic(auto, unfolding(crate::specs::Text::capitals))]
fn capital(n: usize) -> u8
    requires { n < 16 }
    ensures { result ≡ get_or capitals n 0 }
{
    CAPITALS[n]
}

// A lent slice, and how many of its bytes are put. What is printed comes behind them, and the rest of the slice stays.
#[derive(Drop)]
pub struct Page<'a> {
    pub out: &'a mut [u8],
    pub at: usize,
}

impl<'a> Page<'a> {
    // With nothing on it.
    pub fn new(out: &'a mut [u8]) -> Page<'a>
        ensures same_slice { result.out.ghost_name ≡ out.entry.ghost_name }
        ensures page { page_in result ≡ page_of out.old 0 }
    {
        Page { out, at: 0 }
    }

    // How many bytes are put.
    pub fn len(&self) -> usize
        ensures { result ≡ self.now.at }
    {
        self.at
    }

    // The bytes of a text.
    pub fn print(&mut self, text: &[u8])
        ensures { Prints self.old text.now self.new }
    {
        let room = self.out.len();
        let at = self.at;
        if room <= at {
            return;
        }
        let n = text.len().min(room - at);
        let next = at + n;
        self.out[at..next].copy_from_slice(&text[..n]);
        self.at = next;
    }

    // "other numbers are decimal".
    #[tactic(auto, unfolding(crate::specs::Text::decimal))]
    pub fn print_decimal(&mut self, n: u64)
        ensures { Prints self.old (decimal n) self.new }
    {
        let mut digits = [0u8; DIGITS];
        let k = io::decimal(n, &mut digits);
        self.print(&digits[..k]);
    }

    // A word and its number.
    pub fn print_numbered(&mut self, word: &[u8], n: u64)
        ensures { Prints self.old (numbered word.now n) self.new }
    {
        self.print(word);
        self.print_decimal(n);
    }

    // The two digits of a byte.
    #[tactic(auto, unfolding(crate::specs::Text::hex))]
    pub fn print_hex(&mut self, byte: u8)
        ensures { Prints self.old (hex byte) self.new }
    {
        let high = capital(usize::from(byte >> 4));
        let low = capital(usize::from(byte & 0x0F));
        self.print(&[high, low]);
    }

    // The digits of bytes, "with no spaces between bytes".
    pub fn print_hexes(&mut self, bytes: &[u8])
        ensures { Prints self.old (hexes bytes.now) self.new }
    {
        for &byte in bytes {
            self.print_hex(byte);
        }
    }
}
