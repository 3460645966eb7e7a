// A select, clock by clock: a seen rise and a seen fall of SCK, and what an answer says of them.
#![tactic(auto)]

pub mod fall;
pub mod notes;
pub mod rise;
