// Traces as a person writes them: text, one select a line, to the bytes of a trace. From below: the bytes of what is said,
// where words and lines end, what each of them does to the trace, and the whole.
#![tactic(auto)]

pub mod marks;
pub mod put;
mod short;
pub mod spell;
pub mod turns;
