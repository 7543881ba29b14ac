// The values of one train's path (disp_structs.rs, EstTime of est_times/mod.rs), and distances in binary64.
// Every function here is proved, the crate assumes nothing of its own, and no public function has a `requires`.
#![tactic(auto)]

pub mod events;
pub mod floats;

use link_rules::link_idx::{LinkIdx, TrainIdx};

// Metres, seconds and est numbers are kinds of their own, as links and trains are. Est 0 as a link is none.
#[derive(Clone, Copy)]
pub struct Metres(pub f64);

#[derive(Clone, Copy)]
pub struct Seconds(pub f64);

#[derive(Clone, Copy, PartialEq, Eq)]
pub struct EstIdx(pub u32);

#[derive(Clone, Copy, PartialEq, Eq)]
pub enum EstType {
    Arrive,
    Clear,
    Fake,
}

#[derive(Clone, Copy, PartialEq, Eq)]
pub struct LinkEvent {
    pub link_idx: LinkIdx,
    pub est_type: EstType,
}

#[derive(Clone, Copy)]
pub struct EstTime {
    pub dist_to_next: Metres,
    pub idx_next: EstIdx,
    pub idx_next_alt: EstIdx,
    pub idx_prev: EstIdx,
    pub idx_prev_alt: EstIdx,
    pub link_event: LinkEvent,
}

// A path node. disp_auth_idx_entry is document 01's auth.
#[derive(Clone, Copy)]
pub struct DispNode {
    pub offset: Metres,
    pub time_pass: Seconds,
    pub link_event: LinkEvent,
    pub est_idx: EstIdx,
    pub disp_auth_idx_entry: u16,
}

#[derive(Clone, Copy)]
pub struct DivergeNode {
    pub train_idx: TrainIdx,
    pub disp_node_idx: u32,
}

// A view (0, 0) is free; (1, 1) is blocked by nobody.
#[derive(Clone, Copy)]
pub struct TrainIdxsView {
    pub idx_begin: u32,
    pub idx_end: u32,
}
