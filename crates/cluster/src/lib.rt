// The cluster: transactions over replicas, in versions.
#![tactic(auto)]

pub mod cluster;
pub mod replica_index;
mod short_list;
pub mod transaction;
