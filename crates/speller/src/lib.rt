// The spell program's run: a text is read and its trace written; of a text that spells none, a line says what is wrong.
#![tactic(auto)]

pub mod program;
pub mod remarks;
