// The check over a yard (document 01, Yard and Check) and the theorem of demand 3.
// Every function here is proved, the crate assumes nothing of its own, and no public function has a `requires`.
#![tactic(auto)]

pub mod bytes;
pub mod check;
pub mod pair;
pub mod yard;
