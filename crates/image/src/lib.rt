// The image of one train (document 01): its records read from the bytes and written to them.
// Every function here is proved, the crate assumes nothing of its own, and no public function has a `requires`.
#![tactic(auto)]

pub mod codec;
