// The numbers of links and of trains, distinct kinds. 0 is none in both.

// link_idx.rs: LinkIdx
#[derive(Clone, Copy, PartialEq, Eq)]
pub struct LinkIdx(pub u32);

// disp_structs.rs: TrainIdx, whose None is 0
#[derive(Clone, Copy, PartialEq, Eq)]
pub struct TrainIdx(pub u32);

// A train of an occupancy of u16 entries.
#[derive(Clone, Copy, PartialEq, Eq)]
pub struct NarrowTrainIdx(pub u16);
