// Power-up, and a fresh array.
#![tactic(auto)]

pub mod power;
