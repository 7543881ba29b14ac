// The update of one train's free path (free_path.rs, update_free_path). The definitions stand in specs/.
#![tactic(auto)]

// What a turn of the search does.
#[derive(Clone, Copy)]
pub enum Move {
    Rewind,
    Alternate,
    ChangeDiverge,
    PushSaved,
    BlockEmpty,
    Advance,
    Join,
}
