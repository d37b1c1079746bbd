// The accesses to one table as a line of letters, traced through the sequencer.
#![tactic(auto)]

pub mod trace;
