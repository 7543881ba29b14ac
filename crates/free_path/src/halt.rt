// Why a part of update_free_path gives no answer.

// Document 01's refusals within an update: 11 and 13.
#[derive(Clone, Copy, PartialEq, Eq)]
pub enum Halt {
    // 11: a list finds no room, or an offset is beyond 1e12.
    NoRoom,
    // 13: where the Rust panics.
    Panic,
}
