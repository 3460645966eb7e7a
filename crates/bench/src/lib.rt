// The run of a trace: a chip on the bench, told item by item, and the report of it (document 01, "The replay program").
#![tactic(auto)]

pub mod head;
pub mod replay;
mod run;
pub mod text;
