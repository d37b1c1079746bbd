// A line of a run sheet: its seven fields, the call that they make, and the refusal that tells which rule is broken where.
#![tactic(auto)]

pub mod column;
pub mod fields;
pub mod refusal;
