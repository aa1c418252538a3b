// The book of a checker: its calls, their answers, and what it answers to each.
#![tactic(auto)]

pub mod calls;
pub mod shown;
