ghost use Rattle.std.specs.Prelude.{◌≡◌, ◌<◌, ◌≤◌};
ghost use Rattle.flow_types.specs.Tuples.{key_of};
ghost use Rattle.flow_types.specs.Records.{IsRecord, tuple_of};
ghost use Rattle.flow_types.specs.Hash.{part};
ghost use Rattle.key_hash.specs.Buckets.{bucket};

use crate::fields::hash_row;
use crate::fnv::{OFFSET_BASIS, hash_byte};
use flow_types::schema::Schema;
use span_bytes::span::Span;

/// The worker, from 0, of so many to which a row goes by its key: FNV-1a, by Fowler, Noll and Vo, of the
/// key's record, modulo their number. Flink, too, sends a row by a hash of its key modulo the number of
/// receivers; which hash is this project's own choice. A number past the fields counts as the Long 0.
///
/// The cost is a step for each field before a key's field and a multiplication for each byte of the key.
/// Nothing is allocated, and no byte is copied but a text's length.
pub fn part<X: Span>(row: &X, schema: &Schema, key: &[u16], workers: u32) -> u32
    requires whole { IsRecord schema.now (X.seen row.now) }
    requires some { 0 < workers }
    ensures part { result ≡ part (key_of key.now (tuple_of schema.now (X.seen row.now))) workers }
    ensures below { result < workers }
{
    let hash = hash_row(OFFSET_BASIS, row, schema, key);
    (hash % u64::from(workers)) as u32
}

/// The bucket, from 0, of so many to which a row goes by its key at a level. Levels 0 to 3 are for
/// partitions: Flink's hash join parts a partition that is too large once more at the next level, by
/// another hash of the key. Level 4 is for tables. The bucket is the high half of FNV-1a of the byte
/// `1 + level` and the key's record behind it, modulo their number; the byte makes it another hash at each
/// level, and another than that of `part`. A number past the fields counts as the Long 0.
///
/// The cost is a step for each field before a key's field and a multiplication for each byte of the key.
/// Nothing is allocated, and no byte is copied but a text's length.
pub fn bucket<X: Span>(level: u8, row: &X, schema: &Schema, key: &[u16], buckets: u32) -> u32
    requires whole { IsRecord schema.now (X.seen row.now) }
    requires some { 0 < buckets }
    requires level { level ≤ 4 }
    ensures bucket { result ≡ bucket level (key_of key.now (tuple_of schema.now (X.seen row.now))) buckets }
    ensures below { result < buckets }
{
    let started = hash_byte(OFFSET_BASIS, 1 + level);
    let hash = hash_row(started, row, schema, key);
    ((hash >> 32) % u64::from(buckets)) as u32
}
