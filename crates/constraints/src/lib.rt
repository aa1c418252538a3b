// The constraints on a packet behind those accepted before it, and the faults it is refused with.
#![tactic(auto)]

pub mod fault;
pub mod shown;
