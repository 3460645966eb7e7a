// The story's lines: what each says, put on a page that is lent. Nothing here reads or prints.
#![tactic(auto)]

pub mod changes;
pub mod dump;
pub mod lines;
pub mod page;
pub mod words;
