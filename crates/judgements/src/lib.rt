// Tests of the verdict on whole schedules, run from outside the crates that they are about.
#![tactic(auto)]

#[cfg(test)]
mod beside_tests;
#[cfg(test)]
mod count_tests;
#[cfg(test)]
mod order_tests;
#[cfg(test)]
mod port_tests;
#[cfg(test)]
mod records;
#[cfg(test)]
mod run_tests;
#[cfg(test)]
mod schedule;
#[cfg(test)]
mod stall_tests;
#[cfg(test)]
mod write_tests;
