// The parts of a round of update_free_path before its search (free_path.rs 278-343), proved equal to the definitions of update_definition.
// disp_path is read from the image; link_idx_path, diverge nodes and is_on_path are columns of numbers that the caller lends.
// What stands past a column's end reads as 0. The crate assumes nothing of its own, and no public function has a `requires`.
#![tactic(auto)]

pub mod diverge;
pub mod limit;
pub mod path;
pub mod split;
