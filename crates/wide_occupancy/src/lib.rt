// Occupancies of u32 entries, whose trains are at most 999,999 (change request Q-6): refusal 22, and the marks and releases over them.
// Every function here is proved, the crate assumes nothing of its own, and no public function has a `requires`.
#![tactic(auto)]

pub mod advance_rewind;
pub mod trains;
