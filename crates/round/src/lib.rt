// A round of update_free_path (free_path.rs 278-633), proved equal to round_of of update_definition.
// The train stands in the bytes of an image, two columns of diverge nodes and a header's numbers; everything else is lent room.
// dt and dn are the trains and nodes of div_nodes, nt and nn those of div_nodes_new. Of the public functions splitting::round alone has a `requires`.
// The columns stay slices of their own, not one struct: that `requires`, and those of splice and search, name each.
// The crate assumes nothing of its own.
#![tactic(auto)]

pub mod ending;
pub mod searching;
pub mod splitting;

use disp_structs::Metres;
use free_path::halt::Halt;
use free_path::link_opt_type::LinkOptType;
use image::codec::PathHeader;
use link_rules::link_idx::TrainIdx;

// What an update does not change.
#[derive(Clone, Copy)]
pub struct Given {
    pub train_idx_moved: TrainIdx,
    pub is_local: bool,
    pub link_opt_type: LinkOptType,
    pub offset_lowest: Metres,
}

#[derive(Clone, Copy)]
pub enum End {
    Refused(Halt),
    AtEnd,
    Blocked(TrainIdx),
    Again,
}

// How a round ends; the header's numbers that are left, the next idx_split and div_idx_split, how often the loop of its search was entered,
// and the train that it met, which is known before the search.
#[derive(Clone, Copy)]
pub struct RoundEnd {
    pub end: End,
    pub header: PathHeader,
    pub split: usize,
    pub div_split: usize,
    pub steps: u64,
    pub met: TrainIdx,
}
