use segment_core::Purse;

/// What a call on stored records works with: a purse for its segments, and a disk.
#[derive(Drop)]
pub struct Io<'a, D> {
    pub purse: &'a mut Purse,
    pub disk: &'a mut D,
}
