// A board of chips: up to eight on one SCK, SI, SO, /WP and VDD, each with its own /CS and /HOLD (document 02, Wish 5).
#![tactic(auto)]

mod checks;
pub mod chips;
pub mod event;
pub mod power;
pub mod so;
