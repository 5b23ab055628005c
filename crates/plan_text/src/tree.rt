use flow_model::op::{
    AggList, BranchList, ExprList, JoinKind, KeyList, MergeRule, OrderList, TypeList,
};
use flow_types::expr::Expr;
use flow_types::name::Name;
use flow_types::row::Row;
use plan_json::names::NameList;
use sqlite_items::Items;

/// Nodes in document order, an iteration before its body.
pub type TreeList = Items<TreeNode>;

/// A plan as its text has it: names aren't looked up yet, and nothing has a type.
#[derive(Debug, Drop)]
pub struct PlanTree {
    /// The bytes of a segment: 4,096, 8,192, 16,384 or 32,768.
    pub segment: u32,
    /// All nodes, bodies included.
    pub nodes: TreeList,
    /// The name of the node whose rows are the plan's result.
    pub result: Name,
}

/// A node as its text has it.
#[derive(Debug, Drop)]
pub struct TreeNode {
    /// From 1, in document order.
    pub number: u32,
    pub name: Name,
    /// The number of the iteration in whose body the node stands, or 0.
    pub home: u32,
    pub op: TreeOp,
}

/// What a node does, as `Op` of the plan's model has it, with the names that the text has in place of
/// numbers.
#[derive(Debug, Drop)]
pub enum TreeOp {
    Source {
        fields: TypeList,
        delimiter: u8,
    },
    Map {
        input: Name,
        columns: ExprList,
    },
    Filter {
        input: Name,
        test: Expr,
    },
    FlatMap {
        input: Name,
        rows: BranchList,
    },
    Union {
        inputs: NameList,
    },
    Distinct {
        input: Name,
    },
    Group {
        input: Name,
        key: KeyList,
        aggs: AggList,
        combine: bool,
    },
    Top {
        input: Name,
        key: KeyList,
        order: OrderList,
        count: u32,
    },
    Join {
        left: Name,
        right: Name,
        left_key: KeyList,
        right_key: KeyList,
        columns: ExprList,
        kind: JoinKind,
        left_default: Option<Row>,
        right_default: Option<Row>,
    },
    Cogroup {
        left: Name,
        right: Name,
        left_key: KeyList,
        right_key: KeyList,
        left_aggs: AggList,
        right_aggs: AggList,
    },
    Bulk {
        init: Name,
        bind: Name,
        max: u32,
        next: Name,
        until: Option<Name>,
    },
    Delta {
        solution: Name,
        workset: Name,
        bind: Name,
        key: KeyList,
        order: OrderList,
        merge: MergeRule,
        max: u32,
        delta: Name,
        next: Name,
    },
    Probe {
        input: Name,
        key: KeyList,
        columns: ExprList,
    },
}
