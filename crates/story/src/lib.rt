// A trace told as a story: one line for each thing that happened, with its place in the trace.
#![tactic(auto)]

pub mod text;
mod told;
pub mod watch;
