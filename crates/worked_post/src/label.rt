//! What stands at the head of a page that goes from worker to worker.
ghost use Rattle.std.specs.Prelude.{◌≡◌, ◌+◌, ◌≤◌, length};

use segment_core::Segment;

/// Who posted a page, to whom, and how many pages it had posted to it before.
#[derive(Clone, Copy, Debug, PartialEq, Eq)]
pub struct Label {
    pub poster: u32,
    pub receiver: u32,
    pub sequence: u32,
}

impl Label {
    /// Writes the label into a page's first twelve bytes.
    pub fn write(&self, page: &mut Segment)
        ensures id { page.new.id ≡ page.old.id }
        ensures len { length page.new.bytes ≡ length page.old.bytes }
    {
        write_word(page, 0, self.poster);
        write_word(page, 4, self.receiver);
        write_word(page, 8, self.sequence);
    }

    /// The label in a page's first twelve bytes.
    pub fn read(page: &Segment) -> Label {
        Label {
            poster: read_word(page, 0),
            receiver: read_word(page, 4),
            sequence: read_word(page, 8),
        }
    }
}

// Writes a number into four bytes of a page.
fn write_word(page: &mut Segment, at: usize, word: u32)
    requires { at + 4 ≤ 4096 }
    ensures id { page.new.id ≡ page.old.id }
    ensures len { length page.new.bytes ≡ length page.old.bytes }
{
    // for the prover: a page has at least 4,096 bytes
    let _len = page.bytes().len();
    page.bytes_mut()[at..at + 4].copy_from_slice(&word.to_le_bytes());
}

// The number in four bytes of a page.
fn read_word(page: &Segment, at: usize) -> u32
    requires { at + 4 ≤ 4096 }
{
    let bytes = page.bytes();
    u32::from_le_bytes([bytes[at], bytes[at + 1], bytes[at + 2], bytes[at + 3]])
}
