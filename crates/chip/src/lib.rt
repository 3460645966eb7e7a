// The chip: one event at a time or a list of them.
#![tactic(auto)]

pub mod event;
pub mod list;
mod run;
