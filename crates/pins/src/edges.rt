// The pins' edges, each a method that hands back the next state with the note. The edges of /CS and SCK build what they
// hand back in place, and not by `silent`: time it before you change that (docs/SPEED.md).
ghost use Rattle.std.specs.Prelude.{true, false, ◌≡◌};
ghost use Rattle.pins.specs.Edges.{silent, cs_fall, cs_rise, sck_rise, sck_fall, si_to, hold_fall, hold_rise, wp_to, vdd_fall, vdd_rise};

use crate::hold::{Hold, hold_high};
use crate::state::{Moved, State};
use parts::figures::Figure;
use select::fall::{fall, status_byte};
use select::notes::Note;
use select::rise::{Seen, rise};
use stages::close::{after_close, after_fall, drops};
use stages::stage::Line;
use stages::wp::is_up;

impl State {
    // This state, with the note nothing.
    pub fn silent(self) -> Moved
        ensures { result ≡ silent self }
    {
        Moved {
            state: self,
            note: Note::Nothing,
        }
    }

    // A select opens, or the chip wakes; in hold only the level moves.
    #[tactic(auto, unfolding(crate::specs::Edges::cs_fall))]
    pub fn cs_fall(self, f: Figure) -> Moved
        ensures { result ≡ cs_fall f self }
    {
        let hold = self.hold;
        let stage = self.stage;
        if hold_high(hold) {
            let wp = self.wp;
            let next = after_fall(f, is_up(wp), stage);
            let state = State {
                stage: next,
                ..self
            };
            Moved {
                state,
                note: Note::Nothing,
            }
        } else {
            let state = State {
                hold: Hold::LowCsLow,
                ..self
            };
            Moved {
                state,
                note: Note::Nothing,
            }
        }
    }

    // The select closes, and the latch may drop or the chip fall asleep; in hold only the level moves.
    #[tactic(auto, unfolding(crate::specs::Edges::cs_rise))]
    pub fn cs_rise(self) -> Moved
        ensures { result ≡ cs_rise self }
    {
        let hold = self.hold;
        let stage = self.stage;
        if hold_high(hold) {
            let dropped = self.latch & drops(stage);
            let next = after_close(stage);
            if dropped {
                let state = State {
                    latch: false,
                    stage: next,
                    ..self
                };
                Moved {
                    state,
                    note: Note::Latch(false),
                }
            } else {
                let state = State {
                    stage: next,
                    ..self
                };
                Moved {
                    state,
                    note: Note::Nothing,
                }
            }
        } else {
            let state = State {
                hold: Hold::LowCsHigh,
                ..self
            };
            Moved {
                state,
                note: Note::Nothing,
            }
        }
    }

    // A select takes a bit.
    #[tactic(auto, unfolding(crate::specs::Edges::sck_rise))]
    pub fn sck_rise(self, f: Figure) -> Moved
        ensures { result ≡ sck_rise f self }
    {
        let hold = self.hold;
        let stage = self.stage;
        if hold_high(hold) {
            let si = self.si;
            let wp = self.wp;
            let seen = Seen {
                latch: self.latch,
                kept: self.kept,
                wp: is_up(wp),
                si: is_up(si),
            };
            let risen = rise(f, seen, stage);
            let next = risen.stage;
            let note = risen.note;
            let state = State {
                kept: risen.kept,
                sck: true,
                latch: risen.latch,
                stage: next,
                ..self
            };
            Moved { state, note }
        } else {
            let state = State { sck: true, ..self };
            Moved {
                state,
                note: Note::Nothing,
            }
        }
    }

    // A select may show a bit.
    #[tactic(auto, unfolding(crate::specs::Edges::sck_fall))]
    pub fn sck_fall(self, f: Figure, array: &[u8], serial: &[u8]) -> Moved
        ensures { result ≡ sck_fall f serial.now array.now self }
    {
        let hold = self.hold;
        let stage = self.stage;
        if hold_high(hold) {
            let status = status_byte(f, self.kept, self.latch);
            let next = fall(f, array, serial, status, stage);
            let state = State {
                sck: false,
                stage: next,
                ..self
            };
            Moved {
                state,
                note: Note::Nothing,
            }
        } else {
            let state = State { sck: false, ..self };
            Moved {
                state,
                note: Note::Nothing,
            }
        }
    }

    // SI has a level and no more. The step takes the level: an arm for each of its edges is slower (docs/SPEED.md).
    pub fn si_to(self, level: bool) -> Moved
        ensures { result ≡ si_to self level }
    {
        let state = State {
            si: Line::from(level),
            ..self
        };
        state.silent()
    }

    pub fn si_rise(self) -> Moved
        ensures { result ≡ si_to self true }
    {
        self.si_to(true)
    }

    pub fn si_fall(self) -> Moved
        ensures { result ≡ si_to self false }
    {
        self.si_to(false)
    }

    // From here on moves of SCK and /CS are not seen.
    #[tactic(auto, unfolding(crate::specs::Edges::hold_fall))]
    pub fn hold_fall(self) -> Moved
        ensures { result ≡ hold_fall self }
    {
        let hold = if self.cs() {
            Hold::LowCsHigh
        } else {
            Hold::LowCsLow
        };
        let state = State { hold, ..self };
        state.silent()
    }

    #[tactic(auto, unfolding(crate::specs::Edges::hold_rise))]
    pub fn hold_rise(self) -> Moved
        ensures { result ≡ hold_rise self }
    {
        let state = State {
            hold: Hold::High,
            ..self
        };
        state.silent()
    }

    // /WP has a level and no more, as SI.
    pub fn wp_to(self, level: bool) -> Moved
        ensures { result ≡ wp_to self level }
    {
        let state = State {
            wp: Line::from(level),
            ..self
        };
        state.silent()
    }

    pub fn wp_rise(self) -> Moved
        ensures { result ≡ wp_to self true }
    {
        self.wp_to(true)
    }

    pub fn wp_fall(self) -> Moved
        ensures { result ≡ wp_to self false }
    {
        self.wp_to(false)
    }

    // Power is cut.
    pub fn vdd_fall(self) -> Moved
        ensures { result ≡ vdd_fall self }
    {
        Moved {
            state: State::at_rest(self.part, self.kept, false),
            note: Note::PowerLost,
        }
    }

    // Power returns.
    pub fn vdd_rise(self) -> Moved
        ensures { result ≡ vdd_rise self }
    {
        let state = State::at_rest(self.part, self.kept, true);
        state.silent()
    }
}
