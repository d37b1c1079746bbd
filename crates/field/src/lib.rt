// A field of a line: text cut at a mark, decimal numbers, letters, and what a call may ask of a field.
#![tactic(auto)]

mod decimal;
pub mod field;
mod letters;
pub mod pieces;
