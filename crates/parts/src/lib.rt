// The parts of document 01: their figures, their op-codes, and who may write.
#![tactic(auto)]

pub mod commands;
pub mod figures;
pub mod guards;
