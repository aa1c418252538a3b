// Runs of the condition registers: sets of valuations as 64-bit numbers, and what they say of runs.
#![tactic(auto)]

pub mod valuations;
