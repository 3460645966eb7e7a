// The refusals, of every call (documents 01 and 02): one table, each row with its number.
#![tactic(auto)]

pub mod refusal;
