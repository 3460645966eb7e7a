// What stands on the bench: the chip, how many selects it saw, and the record of the last of them.
ghost use Rattle.std.specs.Prelude.{◌≡◌};
ghost use Rattle.turns.specs.Stand.{opens, closes, no_event, clocked_by, shown_by, after};

use chip::event::Answer;
use pins::state::State;
use pins::watch::{is_open, sees_rise};
use report::record::{Record, SHOWN, count};
use stages::close::is_asleep;
use stages::wp::is_up;

#[derive(Clone, Copy)]
pub struct Stand {
    pub chip: State,
    pub selects: u64,
    pub told: Record,
}

impl Stand {
    // A chip that no event came to.
    pub fn new(chip: State) -> Stand
        ensures { result ≡ no_event chip }
    {
        Stand {
            chip,
            selects: 0,
            told: Record::new(false),
        }
    }

    // Whether a select opens.
    #[tactic(auto, unfolding(crate::specs::Stand::opens))]
    pub fn opens(self, next: State) -> bool
        ensures { result ≡ opens self.chip next }
    {
        let chip = self.chip;
        !is_open(chip) & is_open(next)
    }

    // Whether the select that was open is open no more.
    #[tactic(auto, unfolding(crate::specs::Stand::closes))]
    pub fn closes(self, next: State) -> bool
        ensures { result ≡ closes self.chip next }
    {
        let chip = self.chip;
        is_open(chip) & !is_open(next)
    }

    // The record after an event: a seen rise takes SI and SO as they stood before it.
    #[tactic(auto, unfolding(crate::specs::Stand::clocked_by, crate::specs::Stand::shown_by))]
    fn clocked(self, code: u64, shown: &mut [u8; SHOWN]) -> Record
        ensures value { result ≡ clocked_by self code }
        ensures shown_after { shown.new ≡ shown_by shown.old self code }
    {
        let chip = self.chip;
        let told = self.told;
        if sees_rise(chip, code) {
            let si = chip.si;
            return told.rise(is_up(si), chip.so(), shown);
        }
        told
    }

    // After an accepted event.
    #[tactic(auto, unfolding(crate::specs::Stand::after))]
    pub fn after(self, code: u64, answer: Answer, shown: &mut [u8; SHOWN]) -> Stand
        ensures value { result ≡ after self code answer }
        ensures shown_after { shown.new ≡ shown_by shown.old self code }
    {
        let chip = self.chip;
        let next = answer.state;
        let note = answer.note;
        let told = self.clocked(code, shown).note(note);
        if self.opens(next) {
            let stage = chip.stage;
            let ignored = is_asleep(stage);
            return Stand {
                chip: next,
                selects: count(self.selects),
                told: Record::new(ignored),
            };
        }
        Stand {
            chip: next,
            selects: self.selects,
            told,
        }
    }
}
