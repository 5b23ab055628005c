ghost use Rattle.std.specs.Prelude.{◌≡◌, [], ◌∷◌, ◌++◌, map, IfOk, if◌then◌else◌};
ghost use Rattle.flow_model.specs.Rows.{columns_of, partners, is_nothing, inner_rows, left_alone, right_alone, default_row, keeps_left, keeps_right, join_rows};

use crate::key_index::KeyIndex;
use crate::keys::key_of;
use crate::lists::{append_rows, joined, push_row};
use crate::row_ops::columns_of;
use flow_model::op::JoinKind;
use flow_outside::failure::Memory;
use flow_types::expr::Expr;
use flow_types::row::Row;
use flow_types::value::Value;
use std::alloc::Global;

/// What a join says of two rows: the fields by which they meet, and the columns over the left row
/// followed by the right.
#[derive(Drop)]
pub struct Meeting<'a> {
    pub left_key: &'a [u16],
    pub right_key: &'a [u16],
    pub columns: &'a [Expr],
}

/// Inner join: for each left row, for each right row with its key, the columns over both.
pub fn inner_rows(
    alloc: Global,
    meeting: &Meeting<'_>,
    left: &[Row],
    right: &[Row],
) -> Result<Vec<Row>, Memory>
    ensures { IfOk result
        (λ rows. rows.items ≡ inner_rows meeting.now.left_key.now meeting.now.right_key.now meeting.now.columns.now left.now right.now) }
{
    let partners = KeyIndex::of(alloc, meeting.right_key, right)?;
    pairs(alloc, meeting, left, &partners)
}

/// The rows of an inner join with the rows of an index.
fn pairs(
    alloc: Global,
    meeting: &Meeting<'_>,
    left: &[Row],
    right: &KeyIndex<'_>,
) -> Result<Vec<Row>, Memory>
    ensures { IfOk result
        (λ rows. rows.items ≡ inner_rows meeting.now.left_key.now right.now.key meeting.now.columns.now left.now right.now.rows) }
{
    let mut rows = Vec::new(alloc);
    for row in left {
        let tuple = row.values();
        let key = key_of(alloc, meeting.left_key, tuple)?;
        let partners = right.with_key(key.values());
        push_pairs(alloc, &mut rows, meeting.columns, tuple, partners)?;
    }
    Ok(rows)
}

/// Adds the columns over a left tuple followed by each of its partners.
fn push_pairs(
    alloc: Global,
    rows: &mut Vec<Row>,
    columns: &[Expr],
    tuple: &[Value],
    partners: &[Row],
) -> Result<(), Memory>
    ensures { IfOk result
        (λ _. rows.new.items ≡ rows.old.items ++ map (λ r. columns_of columns.now (tuple.now ++ r)) partners.now) }
{
    for row in partners {
        push_pair(alloc, rows, columns, tuple, row.values())?;
    }
    Ok(())
}

/// Adds the columns over one tuple followed by another.
fn push_pair(
    alloc: Global,
    rows: &mut Vec<Row>,
    columns: &[Expr],
    left: &[Value],
    right: &[Value],
) -> Result<(), Memory>
    ensures { IfOk result
        (λ _. rows.new.items ≡ rows.old.items ++ columns_of columns.now (left.now ++ right.now) ∷ []) }
{
    let both = joined(alloc, left, right)?;
    let row = columns_of(alloc, columns, both.values())?;
    push_row(rows, row)
}

/// Adds the columns over one tuple followed by another where `keep` says so.
fn push_pair_if(
    alloc: Global,
    rows: &mut Vec<Row>,
    columns: &[Expr],
    left: &[Value],
    right: &[Value],
    keep: bool,
) -> Result<(), Memory>
    ensures { IfOk result
        (λ _. rows.new.items ≡ rows.old.items
        ++ (if keep then columns_of columns.now (left.now ++ right.now) ∷ [] else [])) }
{
    if !keep {
        return Ok(());
    }
    push_pair(alloc, rows, columns, left, right)
}

/// Whether no row of an index has a row's key.
fn is_alone(
    alloc: Global,
    own_key: &[u16],
    others: &KeyIndex<'_>,
    tuple: &[Value],
) -> Result<bool, Memory>
    ensures { IfOk result
        (λ alone. alone ≡ is_nothing (partners own_key.now others.now.key others.now.rows tuple.now)) }
{
    let key = key_of(alloc, own_key, tuple)?;
    Ok(others.with_key(key.values()).is_empty())
}

/// The left rows without a partner among the rows of an index, each followed by the right side's
/// default.
fn left_alone(
    alloc: Global,
    meeting: &Meeting<'_>,
    default: &[Value],
    left: &[Row],
    right: &KeyIndex<'_>,
) -> Result<Vec<Row>, Memory>
    ensures { IfOk result
        (λ rows. rows.items ≡ left_alone meeting.now.left_key.now right.now.key meeting.now.columns.now default.now left.now right.now.rows) }
{
    let mut rows = Vec::new(alloc);
    for row in left {
        let tuple = row.values();
        let keep = is_alone(alloc, meeting.left_key, right, tuple)?;
        push_pair_if(alloc, &mut rows, meeting.columns, tuple, default, keep)?;
    }
    Ok(rows)
}

/// The left side's default, followed by each of the right rows without a partner among the rows of an
/// index.
fn right_alone(
    alloc: Global,
    meeting: &Meeting<'_>,
    default: &[Value],
    left: &KeyIndex<'_>,
    right: &[Row],
) -> Result<Vec<Row>, Memory>
    ensures { IfOk result
        (λ rows. rows.items ≡ right_alone left.now.key meeting.now.right_key.now meeting.now.columns.now default.now left.now.rows right.now) }
{
    let mut rows = Vec::new(alloc);
    for row in right {
        let tuple = row.values();
        let keep = is_alone(alloc, meeting.right_key, left, tuple)?;
        push_pair_if(alloc, &mut rows, meeting.columns, default, tuple, keep)?;
    }
    Ok(rows)
}

/// A default that is there; the empty tuple where there is none.
fn default_row(row: &Option<Row>) -> &[Value]
    ensures { result.now ≡ default_row row.now }
{
    match row {
        Some(row) => row.values(),
        None => &[],
    }
}

/// Whether a join keeps the left rows without a partner.
fn keeps_left(kind: JoinKind) -> bool
    ensures { result ≡ keeps_left kind }
{
    matches!(kind, JoinKind::Left | JoinKind::Full)
}

/// Whether a join keeps the right rows without a partner.
fn keeps_right(kind: JoinKind) -> bool
    ensures { result ≡ keeps_right kind }
{
    matches!(kind, JoinKind::Right | JoinKind::Full)
}

/// Join: the pairs with one key, and then by its kind the left rows and the right rows without a
/// partner, beside the other side's default.
pub fn join_rows(
    alloc: Global,
    kind: JoinKind,
    meeting: &Meeting<'_>,
    left_default: &Option<Row>,
    right_default: &Option<Row>,
    left: &[Row],
    right: &[Row],
) -> Result<Vec<Row>, Memory>
    ensures { IfOk result
        (λ rows. rows.items ≡ join_rows kind meeting.now.left_key.now meeting.now.right_key.now meeting.now.columns.now left_default.now right_default.now left.now right.now) }
{
    let partners = KeyIndex::of(alloc, meeting.right_key, right)?;
    let mut rows = pairs(alloc, meeting, left, &partners)?;
    if keeps_left(kind) {
        let alone = left_alone(alloc, meeting, default_row(right_default), left, &partners)?;
        append_rows(&mut rows, alone)?;
    }
    if keeps_right(kind) {
        let partners = KeyIndex::of(alloc, meeting.left_key, left)?;
        let alone = right_alone(alloc, meeting, default_row(left_default), &partners, right)?;
        append_rows(&mut rows, alone)?;
    }
    Ok(rows)
}
