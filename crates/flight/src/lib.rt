// The writes in flight: what is kept of the accepted packets, and how it goes on from packet to packet.
#![tactic(auto)]

mod changes;
pub mod history;
pub mod issued;
mod onward;
mod stall;
