/// What a table is told when it is made: how many workers there are, how many bytes a segment has, and
/// the words at the start.
#[derive(Drop)]
pub struct Opening {
    pub workers: u32,
    pub size: usize,
    pub words: Vec<u64>,
}
