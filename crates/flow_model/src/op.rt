ghost use Rattle.std.specs.Prelude.{◌≡◌};
ghost use Rattle.flow_model.specs.Algebra.{is_source, delimiter_of};

use flow_types::agg::Agg;
use flow_types::expr::Expr;
use flow_types::field_type::FieldType;
use flow_types::name::Name;
use flow_types::order_item::OrderItem;
use flow_types::row::Row;
use sqlite_items::Items;

/// The types of a source's fields.
pub type TypeList = Items<FieldType>;

/// Columns, each an expression.
pub type ExprList = Items<Expr>;

/// The branches of a flat map.
pub type BranchList = Items<Branch>;

/// Nodes, by their numbers.
pub type NumberList = Items<u32>;

/// The field numbers of a key.
pub type KeyList = Items<u16>;

/// Folds.
pub type AggList = Items<Agg>;

/// The items of an order.
pub type OrderList = Items<OrderItem>;

/// One branch of a flat map: it gives its columns where `when` is true.
#[derive(Debug, Drop)]
pub struct Branch {
    pub when: Expr,
    pub columns: ExprList,
}

/// Which rows without a partner a join keeps.
#[derive(Clone, Copy, Debug, PartialEq, Eq)]
pub enum JoinKind {
    /// None.
    Inner,
    /// Those of the left side.
    Left,
    /// Those of the right side.
    Right,
    /// Those of both sides.
    Full,
}

/// What decides between the deltas of a key and its old entry.
#[derive(Clone, Copy, Debug, PartialEq, Eq)]
pub enum MergeRule {
    /// The greatest delta.
    Replace,
    /// The greatest of the deltas and the old entry.
    Greatest,
}

/// What a node does. Nodes and bind names are referred to by numbers; inside a body the iteration's
/// number stands for its bind name.
#[derive(Debug, Drop)]
pub enum Op {
    /// The rows of an input, one for a line; the delimiter stands between the fields of a line.
    Source {
        fields: TypeList,
        delimiter: u8,
    },
    /// The columns of each row.
    Map {
        input: u32,
        columns: ExprList,
    },
    /// The rows of which the test is true.
    Filter {
        input: u32,
        test: Expr,
    },
    /// For each row, the columns of each branch whose `when` is true of it.
    FlatMap {
        input: u32,
        rows: BranchList,
    },
    /// The rows of all inputs, one after the other.
    Union {
        inputs: NumberList,
    },
    /// Each row once.
    Distinct {
        input: u32,
    },
    /// For each key its values, and the folds of the rows that have it. `combine` lets rows be folded
    /// before they are exchanged, and changes no result.
    Group {
        input: u32,
        key: KeyList,
        aggs: AggList,
        combine: bool,
    },
    /// For each key the first rows by rank, at most `count` of them.
    Top {
        input: u32,
        key: KeyList,
        order: OrderList,
        count: u32,
    },
    /// For each two rows with one key the columns over both. By its kind also rows without a partner,
    /// beside the other side's default.
    Join {
        left: u32,
        right: u32,
        left_key: KeyList,
        right_key: KeyList,
        columns: ExprList,
        kind: JoinKind,
        left_default: Option<Row>,
        right_default: Option<Row>,
    },
    /// For each key of either side its values, the folds of the left rows that have it, and those of
    /// the right rows.
    Cogroup {
        left: u32,
        right: u32,
        left_key: KeyList,
        right_key: KeyList,
        left_aggs: AggList,
        right_aggs: AggList,
    },
    /// The last state. It begins as `init`, and each superstep makes `next` of it. It is the last one
    /// after `max` supersteps, or after one whose `until` has no rows.
    Bulk {
        init: u32,
        bind: Name,
        max: u32,
        next: u32,
        until: Option<u32>,
    },
    /// The last solution, which holds one row for each key. Each superstep puts `delta` into it and
    /// makes `next` of the workset, until that is empty or `max` supersteps ran.
    Delta {
        solution: u32,
        workset: u32,
        bind: Name,
        key: KeyList,
        order: OrderList,
        merge: MergeRule,
        max: u32,
        delta: u32,
        next: u32,
    },
    /// For each row whose key the solution holds, the columns over the row and the row held.
    Probe {
        input: u32,
        key: KeyList,
        columns: ExprList,
    },
}

impl Op {
    pub fn is_source(&self) -> bool
        ensures { result ≡ is_source self.now }
    {
        matches!(self, Op::Source { .. })
    }

    /// The byte between a source's fields; a comma for another op.
    pub fn delimiter(&self) -> u8
        ensures { result ≡ delimiter_of self.now }
    {
        match self {
            Op::Source { delimiter, .. } => *delimiter,
            _ => b',',
        }
    }
}
