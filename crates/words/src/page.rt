// An address printed on a page.
ghost use Rattle.report.specs.Prints.{Prints};
ghost use Rattle.words.specs.Words.{address};

use report::page::Page;

// The four digits of an address.
#[tactic(auto, unfolding(crate::specs::Words::address))]
pub fn print_address(page: &mut Page, place: usize)
    ensures { Prints page.old (address place) page.new }
{
    page.print_hex(((place >> 8) & 0xFF) as u8);
    page.print_hex((place & 0xFF) as u8);
}
