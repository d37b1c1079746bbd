// What a transaction declares and calls for, and which number it is assigned at each table.
#![tactic(auto)]

pub mod call;
pub mod mode;
pub mod sequencer;
