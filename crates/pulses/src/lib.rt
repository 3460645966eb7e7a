// Long runs of pulses (document 02, Wish 7).
#![tactic(auto)]

pub mod read;
pub mod ready;
pub mod run;
pub mod skip;
pub mod sums;
pub mod write;
