use crate::page::Page;

/// A step that changes the exchange. `p` is the number of the worker that sends, `c` the number of
/// the one that receives.
#[derive(Debug, Drop)]
pub enum Event {
    /// `p` puts a page into its mailbox to `c`.
    Put { p: u32, c: u32, page: Page },
    /// `c` gets the page that is in the mailbox of `p` to `c`.
    Got { p: u32, c: u32 },
}
