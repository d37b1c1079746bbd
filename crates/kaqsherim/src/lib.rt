// The catalogue for programs in C and in Rust: functions on numbers and bytes. kaqsherim.h declares them.
#![tactic(auto)]

pub mod exports;
pub mod unwritten;
pub mod writing;
