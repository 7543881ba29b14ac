// The sheet of a bundle (document 01, Program sheet): refusal 17, and the check of its yard as text.
// Every function here is proved, the crate assumes nothing of its own, and no public function has a `requires`.
#![tactic(auto)]

pub mod bundle;
pub mod sheet;
