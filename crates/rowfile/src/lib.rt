// Row files: a repertoire that is read from bytes in place, and the same in words.
#![tactic(auto)]

pub mod entry;
pub mod file;
pub mod listing;
