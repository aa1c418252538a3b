// The checker: records are taken one by one, formed into packets, and each packet is judged.
#![tactic(auto)]

pub mod checker;
pub mod replay;
