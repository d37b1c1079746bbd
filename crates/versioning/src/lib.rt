// The versioning machine: what each call answers and leaves, and the serial order of every run.
#![tactic(auto)]

pub mod family;
pub mod laws;
pub mod operation;
pub mod request;
