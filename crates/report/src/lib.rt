// What the replay program tells of a run (document 01, "The replay program"): a select's record, and the
// lines of the report, printed on a page. Nothing here reads or writes.
#![tactic(auto)]

pub mod lines;
pub mod page;
pub mod record;
