// The stages of a select: what stands in the chip between two clocks, the bits and the address that it takes.
#![tactic(auto)]

pub mod address;
pub mod bits;
pub mod close;
pub mod last;
pub mod sound;
pub mod stage;
pub mod wp;
