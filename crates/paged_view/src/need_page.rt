use thiserror::Error;

/// The pages are too few for the next record: a writer's for all of its bytes, a reader's to have it
/// whole.
#[derive(Clone, Copy, Debug, PartialEq, Eq, Error)]
#[error("another page is needed")]
pub struct NeedPage;
