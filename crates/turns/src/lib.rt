// A turn: what one event does to the chip on the bench, to its record and to the page that is printed (document 01, "The replay program").
#![tactic(auto)]

pub mod stand;
pub mod turn;
