// Link rules: the link table, and the marks and releases of links.
// Every function here is proved, the crate assumes nothing of its own, and no public function has a `requires`.
#![tactic(auto)]

pub mod advance_rewind;
pub mod link_idx;
pub mod network;
pub mod occupancy;
pub mod octets;
pub mod refusal;
