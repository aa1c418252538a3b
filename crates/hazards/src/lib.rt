// Hazards of a packet as a whole: what it may have only so many of, and how long it takes.
#![tactic(auto)]

pub mod counts;
pub mod fault;
pub mod length;
