// The words of a text that spells a trace. From below: characters, words as names and numbers, and what a word says where
// it stands.
#![tactic(auto)]

pub mod chars;
pub mod says;
pub mod words;
