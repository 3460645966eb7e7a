// The chip's state by value, its lines, the edges of its pins, and the soundness test.
#![tactic(auto)]

pub mod edges;
pub mod hold;
pub mod sound;
pub mod state;
pub mod watch;
