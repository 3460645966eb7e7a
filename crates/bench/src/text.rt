// The report of a trace, as text in a lent slice.
ghost use Rattle.std.specs.Prelude.{◌≡◌, replicate};
ghost use Rattle.report.specs.Record.{most_shown};
ghost use Rattle.report.specs.Page.{page_of, printed};
ghost use Rattle.report.specs.Prints.{Prints};
ghost use Rattle.bench.specs.Report.{open_text, last_text, whole_text, reported};
ghost use Rattle.bench.specs.Run.{ran};

use crate::head::{Head, head_of};
use crate::run::{start, take_items};
use parts::figures::{LARGEST, figure_of};
use pins::watch::is_open;
use refusals::refusal::number_or_0;
use report::page::Page;
use report::record::SHOWN;
use turns::stand::Stand;
use turns::turn::Bench;

// The line of a select left open.
fn print_open(page: &mut Page, stand: Stand, shown: &[u8; SHOWN])
    ensures { Prints page.old (open_text stand shown.now) page.new }
{
    if is_open(stand.chip) {
        page.print_select(stand.selects, stand.told, shown);
    }
}

// What is left to tell at the end: the line of a select left open, and the last line.
fn print_last(bench: &mut Bench)
    ensures same_array { bench.new.array.ghost_name ≡ bench.old.array.ghost_name }
    ensures same_page { bench.new.page.ghost_name ≡ bench.old.page.ghost_name }
    ensures prints { Prints bench.old.page.now (last_text bench.old.stand bench.old.refusal bench.old.shown) bench.new.page.now }
{
    let stand = bench.stand;
    print_open(bench.page, stand, &bench.shown);
    bench.page.print_end(
        stand.chip.kept,
        stand.chip.latch,
        number_or_0(bench.refusal),
    );
}

// From power-up on, with an array of the part's size; SO showed nothing yet.
fn report_run(trace: &[u8], head: Head, array: &mut [u8], out: &mut [u8]) -> usize
    ensures { page_of out.new result
        ≡ printed (page_of out.old 0) (whole_text (ran trace.now head array.old (replicate most_shown 0))) }
{
    let mut page = Page::new(out);
    let powered = start(head, array, &mut page);
    let mut bench = Bench {
        refusal: powered.refusal,
        stand: Stand::new(powered.state),
        array,
        shown: [0; SHOWN],
        page: &mut page,
    };
    take_items(&mut bench, trace, head.items);
    print_last(&mut bench);
    page.len()
}

// Puts the report of a trace into `out`, cut where the slice ends, and answers how many bytes that is. The rest of the
// slice stays.
pub fn report(trace: &[u8], out: &mut [u8]) -> usize
    ensures { page_of out.new result ≡ reported trace.now out.old }
{
    match head_of(trace) {
        Ok(head) => {
            let mut array = [0u8; LARGEST];
            let size = figure_of(head.part).size;
            report_run(trace, head, &mut array[..size], out)
        }
        Err(no_head) => {
            let mut page = Page::new(out);
            page.print_end(0, false, u8::from(no_head.refusal));
            page.len()
        }
    }
}
