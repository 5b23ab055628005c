use crate::prefix::Prefix;

/// A stream, whether the record that it shows was given already, which it was, too, before it was
/// advanced, and the prefix of that record, None where none is shown. What was given needs none.
pub struct Source<R> {
    pub(crate) stream: R,
    pub(crate) given: bool,
    pub(crate) prefix: Option<Prefix>,
}
