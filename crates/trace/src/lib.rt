// Trace numbers (document 01, "Trace numbers"): the lowest layer. What a call answers, the core on a
// plain slice and a place, the reader that holds both, and the numbers as items: what events they are.
#![tactic(auto)]

pub mod answer;
pub mod items;
pub mod number;
pub mod reader;
