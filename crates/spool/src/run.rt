/// Pages on a disk, each of which names the next one's block. It takes one block more than it has pages:
/// the one behind the last page is live, and has no page.
#[derive(Debug, Drop)]
pub struct Run {
    /// The block of the first page, and that behind the last one where there is no page.
    pub first: u64,
    /// How many pages it has.
    pub pages: u64,
}
