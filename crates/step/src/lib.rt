// The step of one event, and the byte that it stores.
#![tactic(auto)]

pub mod step;
