// Stores of a catalogue over lent memory: an image, and a change list.
#![tactic(auto)]

pub mod change_list;
pub mod image;
pub mod memory;
