// The end of a round of update_free_path: a change of diverge nodes (free_path.rs 502-532), and the join of the new path with the old one (576-746).
// The old path stands in the bytes of an image, the new one in a buffer of the same layout, and diverge nodes in two columns: dt and dn are the trains
// and nodes of div_nodes, nt and nn those of div_nodes_new. They stay four slices: the landed `requires` of join and change_diverge name each.
// Of the public functions join::join and change::change_diverge have a `requires`: JoinFits, ChangeFits.
#![tactic(auto)]

pub mod change;
pub mod diverge;
pub mod ends;
pub mod join;
pub mod links;
pub mod moves;
pub mod path;

use image::codec::PathHeader;

// Where the search of a round ended: idx_split_save, idx_split, div_idx_split, disp_node_idx_free, idx_join_new, and the counts of
// disp_path_new and div_nodes_new.
#[derive(Clone, Copy)]
pub struct Reached {
    pub split_save: u32,
    pub split: u32,
    pub div_split: usize,
    pub free: u32,
    pub join: u32,
    pub new_count: u32,
    pub div_count: usize,
}

// The header's numbers that are left, and the next idx_split and div_idx_split; how often a path node was moved.
#[derive(Clone, Copy)]
pub struct Again {
    pub header: PathHeader,
    pub split: u32,
    pub div_split: usize,
    pub moves: usize,
}
