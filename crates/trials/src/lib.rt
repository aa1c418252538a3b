// The worked trials of the rules, as one proposition.
#![tactic(auto)]

pub mod trials;
