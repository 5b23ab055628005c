ghost use Rattle.std.specs.Prelude.{◌≡◌, ◌-◌, [], None, drop, length, map, option_map, ⊤};

use flow_outside::failure::StreamFault;
use flow_outside::spill::Spill;
use paged_view::record_ref::RecordRef;
use paged_view::share::Share;
use paged_view::stream::RecordStream;
use span_bytes::span::Span;

/// Records of a list, as a stream that calls no disk.
#[derive(Drop)]
pub(crate) struct Listed<'a> {
    pub(crate) rows: &'a [&'a [u8]],
    pub(crate) next: usize,
    pub(crate) shown: Option<&'a [u8]>,
}

impl<D: Spill> RecordStream<D> for Listed<'_> {
    ghost left = { λ s told rows. rows ≡ map (λ row. row.now) (drop s.next s.rows.now) };

    ghost IsReady = { λ s. ⊤ };

    ghost shown = { λ s. option_map (λ row. row.now) s.shown };

    ghost block_read = { λ s. 0 };

    ghost most_left = { λ s. length s.rows.now - s.next };

    ghost held = { λ s. [] };

    fn advance(&mut self, _disk: &mut D) -> Result<bool, StreamFault> {
        if self.next < self.rows.len() {
            self.shown = Some(self.rows[self.next]);
            self.next += 1;
            return Ok(true);
        }
        self.shown = None;
        Ok(false)
    }

    fn head(&self) -> Option<RecordRef<'_>> {
        match self.shown {
            Some(row) => Some(RecordRef::of(row, &[], &[], Share::Whole, row.len())),
            None => None,
        }
    }

    fn block(&self) -> u64 {
        0
    }
}

/// How many records of a stream are those wanted, up to the first that isn't, and one more where it ends behind them.
pub(crate) fn count_wanted<D: Spill, S: RecordStream<D>>(
    stream: &mut S,
    disk: &mut D,
    wanted: &[&[u8]],
) -> Result<usize, StreamFault>
    requires ready { S.IsReady stream.old }
    requires untold { D.told disk.old ≡ None }
{
    for at in 0..wanted.len() {
        if !stream.advance(disk)? || !shows(stream.head(), wanted[at]) {
            return Ok(at);
        }
    }
    if stream.advance(disk)? {
        return Ok(wanted.len());
    }
    Ok(wanted.len() + 1)
}

/// Whether a record lies in one piece and has these bytes.
fn shows(head: Option<RecordRef<'_>>, wanted: &[u8]) -> bool {
    match head {
        Some(row) => row.len() == wanted.len() && (wanted.is_empty() || row.piece(0) == wanted),
        None => false,
    }
}
