// Admission: from a record and its row to an instruction, or to the first refusal that applies.
#![tactic(auto)]

pub mod admit;
pub mod instruction;
pub mod refusals;
