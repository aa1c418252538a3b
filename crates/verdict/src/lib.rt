// The verdict on one packet behind those accepted before it.
#![tactic(auto)]

mod entry_claim;
pub mod judge;
mod search;
