// The run sheet: calls as lines of text, read from lent bytes, whatever they are.
#![tactic(auto)]

pub mod listing;
pub mod reader;
pub mod refusal;
mod rewind;

// Fields and refusals' columns are told by these.
pub use field::field::Field;
pub use line::column::Column;
