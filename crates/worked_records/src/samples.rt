//! A small stream and a small order, which meet their traits.
ghost use Rattle.std.specs.Prelude.{◌≡◌, ℕ, ◌^◌, ◌<◌, [], true, Option, Some, None, length, All, MatchOption, OnOk, option_map, replicate, ⊤};
ghost use Rattle.std.specs.Cmp.Lexicographic.{slice_cmp};
ghost use Rattle.std.specs.Ordering.{nat_cmp};
ghost use Rattle.segment_core.specs.Segments.{segment_sum};
ghost use Rattle.paged_view.specs.Streams.{KnowsRows};
ghost use Rattle.flow_types.specs.Records.{frames};
ghost use Rattle.paged_view.specs.Reading.{HasRecord, first_record, after_first};

use flow_outside::failure::StreamFault;
use flow_outside::spill::Spill;
use paged_view::order::RecordOrder;
use paged_view::record_ref::RecordRef;
use paged_view::share::Share;
use paged_view::stream::RecordStream;
use span_bytes::span::Span;
use std::cmp::Ordering;

/// The framed records of a slice, as a stream that calls no disk.
#[derive(Drop)]
pub struct Frames<'a> {
    pub rest: &'a [u8],
    pub shown: Option<&'a [u8]>,
}

impl<D: Spill> RecordStream<D> for Frames<'_> {
    ghost left = { λ s told rows. (s.rest.now ≡ frames rows) × All (λ row. length row < 2 ^ 32) rows };

    ghost IsReady = { λ s. ⊤ };

    ghost shown = { λ s. option_map (λ row. row.now) s.shown };

    ghost block_read = { λ s. 0 };

    ghost most_left = { λ s. length s.rest.now };

    ghost held = { λ s. [] };

    fn advance(&mut self, _disk: &mut D) -> Result<bool, StreamFault> {
        match first_of(self.rest) {
            Some((row, rest)) => {
                self.shown = Some(row);
                self.rest = rest;
                Ok(true)
            }
            None => {
                self.shown = None;
                if self.rest.is_empty() {
                    Ok(false)
                } else {
                    Err(StreamFault::Damaged { block: 0 })
                }
            }
        }
    }

    fn head(&self) -> Option<RecordRef<'_>> {
        match self.shown {
            Some(row) => Some(RecordRef::of(row, &[], &[], Share::Whole, row.len())),
            None => None,
        }
    }

    fn block(&self) -> u64 {
        0
    }
}

// The record that a text begins with and what stands behind it, where it is whole.
fn first_of(text: &[u8]) -> Option<(&[u8], &[u8])>
    ensures { MatchOption result (HasRecord text.now → ⊥) (λ p.
        HasRecord text.now × (p.0.now ≡ first_record text.now) × (p.1.now ≡ after_first text.now)) }
{
    if text.len() < 4 {
        return None;
    }
    let (frame, rest) = text.split_at(4);
    let len = u32::from_be_bytes([frame[0], frame[1], frame[2], frame[3]]) as usize;
    if rest.len() < len {
        return None;
    }
    Some(rest.split_at(len))
}

/// Records by their bytes.
#[derive(Drop)]
pub struct Bytewise;

impl RecordOrder for Bytewise {
    ghost use Rattle.std.proofs.lemmas.Cmp.{nat_list_cmp_total};

    ghost is_fit = { λ order row. true };

    ghost prefix_of = { λ order row. replicate 16 0 };

    ghost cmp = { λ order a b. slice_cmp nat_cmp a b };

    fn fits(&self, _row: &RecordRef<'_>) -> bool {
        true
    }

    fn prefix(&self, _row: &RecordRef<'_>) -> [u8; 16] {
        [0; 16]
    }

    fn compare(&self, a: &RecordRef<'_>, b: &RecordRef<'_>) -> Ordering {
        let mut at = 0;
        let (a_len, b_len) = (a.len(), b.len());
        'bytes: while at < a_len && at < b_len {
            match a.at(at).cmp(&b.at(at)) {
                Ordering::Equal => at += 1,
                other => return other,
            }
        }
        a_len.cmp(&b_len)
    }

    ghost total = { λ order. nat_list_cmp_total };

    ghost prefix_first = { λ order a b _ _ less. Prim.cc };
}

/// Advances a stream to its end.
pub fn run_out<D: Spill, R: RecordStream<D>>(
    stream: &mut R,
    disk: &mut D,
) -> Result<(), StreamFault>
    requires ready { R.IsReady stream.old }
    requires known { KnowsRows (D.told disk.old) (R.left stream.old (D.told disk.old)) }
    ensures end { OnOk result (KnowsRows (D.told disk.new) (λ rows. (rows ≡ []) × R.left stream.new (D.told disk.new) rows)) }
    ensures shows { R.shown stream.new ≡ None }
    ensures segments { (h : ℕ → ℕ → ℕ) → segment_sum h (R.held stream.new) ≡ segment_sum h (R.held stream.old) }
    ensures tells { D.told disk.new ≡ D.told disk.old }
{
    'records: loop {
        match stream.advance(disk) {
            Ok(true) => (),
            Ok(false) => return Ok(()),
            Err(fault) => return Err(fault),
        }
    }
}
