// Lists of a bounded length, kept in place: nothing is allocated.
#![tactic(auto)]

pub mod list;
