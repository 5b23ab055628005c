//! What a seat knows. Of these types no value is made: they serve the proofs alone.

use std::collections::LinkedList;

/// One exchange of a slot: the bytes of the page that changed hands, the id of the segment that went
/// into the slot, and the id of the one that came out.
pub struct Moved {
    pub pair: u64,
    pub bytes: LinkedList<u8>,
    pub went_in: u32,
    pub came_out: u32,
}

/// What was posted and what was taken, as it was known at one meeting.
pub struct Meeting {
    pub posted: LinkedList<Moved>,
    pub took: LinkedList<Moved>,
}

/// A seat's view.
pub struct View {
    /// How many workers there are.
    pub count: u32,
    /// How many bytes each segment of the table has.
    pub size: u64,
    /// The seat's worker; of the main seat, the worker that it parted last.
    pub number: u32,
    /// The workers whose lists stand here.
    pub here: LinkedList<u32>,
    /// What they posted.
    pub posted: LinkedList<Moved>,
    /// What they took.
    pub took: LinkedList<Moved>,
    /// What is known of the lists of all workers.
    pub known: LinkedList<Meeting>,
    /// How often it looked at a word.
    pub loads: u64,
    /// What it saw there last.
    pub last: u64,
    /// The pair whose slot is in its hand.
    pub holding: Option<u64>,
    /// The bytes of what it took out of that slot.
    pub in_hand: LinkedList<u8>,
    /// The seat was met, and is no more.
    pub is_spent: bool,
}
