// Counting row cycles (document 02, Wish 9).
#![tactic(auto)]

pub mod count;
