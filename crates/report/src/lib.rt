// What is printed for a run sheet: a line for each of its lines, with the answer to the call.
#![tactic(auto)]

mod answering;
pub mod report_line;
mod requesting;
pub mod running;
mod writing;
