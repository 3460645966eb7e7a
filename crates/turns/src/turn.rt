// A turn: what one event does to the bench.
ghost use Rattle.turns.specs.Bench.{Takes, after_event};

use crate::stand::Stand;
use chip::event::event;
use parts::figures::SERIAL;
use refusals::refusal::Refusal;
use report::page::Page;
use report::record::SHOWN;

// The bench in the course of a run: the refusal that stopped it, if any, what stands on it, the array, the first bytes of SO in
// the last select, and the page that the lines of the selects are printed on.
#[derive(Drop)]
pub struct Bench<'a, 'b> {
    pub refusal: Option<Refusal>,
    pub stand: Stand,
    pub array: &'a mut [u8],
    pub shown: [u8; SHOWN],
    pub page: &'a mut Page<'b>,
}

// "replay uses eight bytes 00" (document 02, Wish 8): the serial number that is lent with every event.
pub const REPLAY_SERIAL: [u8; SERIAL] = [0; SERIAL];

impl Bench<'_, '_> {
    // One event. A select that it closes has its line printed.
    pub fn take_event(&mut self, code: u64)
        ensures { Takes self.old (λ b. after_event b code) self.new }
    {
        let stand = self.stand;
        let chip = stand.chip;
        let answer = event(chip, self.array, &REPLAY_SERIAL, code);
        if let Some(refusal) = answer.refusal {
            self.refusal = Some(refusal);
            return;
        }
        let next = answer.state;
        let after = stand.after(code, answer, &mut self.shown);
        self.refusal = None;
        self.stand = after;
        if stand.closes(next) {
            self.page
                .print_select(after.selects, after.told, &self.shown);
        }
    }
}
