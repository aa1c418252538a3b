// Claims that instructions make: each kind, and the one search for the first two that clash.
#![tactic(auto)]

pub mod claim;
pub mod kinds;
pub mod port;
pub mod write;
