// Serial numbers (document 02, Wish 8): the check.
#![tactic(auto)]

pub mod check;
