// The parts of update_free_path (free_path.rs) that look at one list each: the class of the blocking list, the
// sentinels, the intersection search, the pool of blocking trains and its views, and the strays of a path.
// Every function here is proved, the crate assumes nothing of its own, and no public function has a `requires`.
#![tactic(auto)]

pub mod columns;
pub mod halt;
pub mod link_opt_type;
pub mod search_limit;
pub mod strays;
pub mod train_idxs_view;
