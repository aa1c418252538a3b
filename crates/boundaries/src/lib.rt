// Tests at the boundaries of the refusals, run from outside the crates that they are about.
#![tactic(auto)]

#[cfg(test)]
mod admission_tests;
#[cfg(test)]
mod claim_tests;
#[cfg(test)]
mod count_tests;
#[cfg(test)]
mod file_tests;
#[cfg(test)]
mod records;
#[cfg(test)]
mod run_tests;
