// Layers over any store: a cache, and other numbers for the tables.
#![tactic(auto)]

pub mod cache;
pub mod numbers;
pub mod renumbering;
