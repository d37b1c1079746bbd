// The ground of the catalogue: rows and their places, stores and replicas, kinds of row, and what a call may refuse with.
#![tactic(auto)]

pub mod kind;
pub mod refusal;
pub mod replicas;
pub mod row;
pub mod store;
pub mod table;
