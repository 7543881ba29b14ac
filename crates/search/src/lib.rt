// The search of a round of update_free_path (free_path.rs 345-633), proved equal to the definitions of update_definition: looking (look, views),
// the moves but ChangeDiverge and Join (moves, rewind), a turn up to these two (turn), and turn after turn up to the one that ends it (run).
// est_times and disp_path are read from the image; diverge nodes, views, the pool of blocking trains and is_on_path are
// columns of numbers that the caller lends. What stands past a column's end reads as 0. dt and dn are the trains and
// nodes of div_nodes, nt and nn those of div_nodes_new; they stand singly in every signature, as in run's, which a landed `requires` names. Of the public functions run::run alone has a `requires`: Ready. The crate assumes nothing of its own.
#![tactic(auto)]

pub mod fakes;
pub mod look;
pub mod moves;
pub mod rewind;
pub mod run;
pub mod turn;
pub mod views;

use disp_structs::{DispNode, Metres};
use free_path::halt::Halt;
use link_rules::link_idx::TrainIdx;

// What the search of a round does not change, with the counts of the train's lists and document 01's Q.
#[derive(Clone, Copy)]
pub struct Round {
    pub est_count: usize,
    pub path_count: usize,
    pub diverge_count: usize,
    pub diverge_room: usize,
    pub disp_node_idx_fixed: usize,
    pub train_idx_moved: TrainIdx,
    pub offset_cancel: Metres,
    pub idx_split_save: usize,
}

// What it changes, with the counts of disp_path_new, div_nodes_new and train_idxs_blocking.
#[derive(Clone, Copy)]
pub struct Place {
    pub idx_split: usize,
    pub div_idx_split: usize,
    pub idx_save: usize,
    pub disp_node_idx_free: usize,
    pub new_count: usize,
    pub div_count: usize,
    pub pool_count: usize,
}

// What a turn does: it is refused, it changes the new path or leaves it as it is, or it ends the round, blocked by a train.
#[derive(Clone, Copy)]
pub enum Effect {
    Refused(Halt),
    Push(DispNode),
    Pop,
    Stay,
    GiveUp(TrainIdx),
}

// The effect of a move, and where the search stands after it.
#[derive(Clone, Copy)]
pub struct Moved {
    pub effect: Effect,
    pub place: Place,
}
