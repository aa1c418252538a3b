// The machine's vocabulary: records, registers, units, classes, rows and the repertoires that hold them.
#![tactic(auto)]

pub mod built_in;
pub mod class;
pub mod condition;
pub mod names;
pub mod record;
pub mod refusal;
pub mod register;
pub mod repertoire;
pub mod row;
pub mod unit;
pub mod unknown;
pub mod width;
