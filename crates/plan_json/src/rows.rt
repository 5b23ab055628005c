ghost use Rattle.std.specs.Prelude.{◌≡◌, string_bytes};
ghost use Rattle.std.specs.List.{list_all, list_any};
ghost use Rattle.std.specs.Str.{bytes_eq};
ghost use Rattle.std.specs.BTreeMap.{keys};
ghost use Rattle.serde_json.specs.View.{view};
ghost use Rattle.plan_json.specs.Json.{meaning};
ghost use Rattle.plan_json.specs.declared.rows.OpName.TheVariants as op_name;
ghost use Rattle.plan_json.specs.Rows.{op_names, op_name_of, row_of, is_member, has_only};

use serde_json::{Map, Value};

/// The ops, by the words that name them.
#[derive(Clone, Copy, Debug, PartialEq, Eq)]
pub enum OpName {
    Source,
    Map,
    Filter,
    FlatMap,
    Union,
    Distinct,
    Group,
    Top,
    Join,
    Cogroup,
    Bulk,
    Delta,
    Probe,
}

/// The objects of a plan.
#[derive(Clone, Copy, Debug, PartialEq, Eq)]
pub enum Form {
    /// The plan itself.
    Plan,
    /// A branch of a flat map.
    Branch,
    /// A node with this op.
    Node(OpName),
}

/// The op that a node names; `None` where it is no object, names none or an unknown one.
pub fn op_name_of(node: &Value) -> Option<OpName>
    ensures { result ≡ op_name_of (view node.now) }
{
    match node.get("op").and_then(Value::as_str) {
        None => None,
        Some(word) => op_named(word),
    }
}

fn op_named(word: &str) -> Option<OpName>
    ensures { result ≡ meaning op_names word.now }
{
    match word {
        "source" => Some(OpName::Source),
        "map" => Some(OpName::Map),
        "filter" => Some(OpName::Filter),
        "flat_map" => Some(OpName::FlatMap),
        "union" => Some(OpName::Union),
        "distinct" => Some(OpName::Distinct),
        "group" => Some(OpName::Group),
        "top" => Some(OpName::Top),
        "join" => Some(OpName::Join),
        "cogroup" => Some(OpName::Cogroup),
        "bulk" => Some(OpName::Bulk),
        "delta" => Some(OpName::Delta),
        "probe" => Some(OpName::Probe),
        _ => None,
    }
}

/// Whether the value is an object that has no other member than the form's.
pub fn has_only(form: Form, value: &Value) -> bool
    ensures { result ≡ has_only form (view value.now) }
{
    match value.as_object() {
        None => false,
        Some(members) => all_known(form, members),
    }
}

fn all_known(form: Form, members: &Map<String, Value>) -> bool
    ensures { result ≡ list_all (λ name. is_member form (string_bytes name)) (keys members.now) }
{
    members.keys().all(|name| is_member(form, name.as_str()))
}

fn is_member(form: Form, name: &str) -> bool
    ensures { result ≡ is_member form name.now }
{
    match form {
        Form::Plan => {
            name == "version" || name == "segment" || name == "nodes" || name == "result"
        }
        Form::Branch => name == "when" || name == "columns",
        Form::Node(op) => name == "name" || name == "op" || is_in_row(op, name),
    }
}

/// Whether a member belongs to an op's row.
fn is_in_row(op: OpName, name: &str) -> bool
    ensures { result ≡ list_any (bytes_eq name.now) (row_of op) }
{
    match op {
        OpName::Source => name == "fields" || name == "delimiter",
        OpName::Map => name == "input" || name == "columns",
        OpName::Filter => name == "input" || name == "test",
        OpName::FlatMap => name == "input" || name == "rows",
        OpName::Union => name == "inputs",
        OpName::Distinct => name == "input",
        OpName::Group => { name == "input" || name == "key" || name == "aggs" || name == "combine" }
        OpName::Top => name == "input" || name == "key" || name == "order" || name == "count",
        OpName::Join => is_in_join(name),
        OpName::Cogroup => is_in_cogroup(name),
        OpName::Bulk => is_in_bulk(name),
        OpName::Delta => is_in_delta(name),
        OpName::Probe => name == "input" || name == "key" || name == "columns",
    }
}

fn is_in_join(name: &str) -> bool
    ensures { result ≡ list_any (bytes_eq name.now) (row_of op_name.Join) }
{
    name == "left"
        || name == "right"
        || name == "left_key"
        || name == "right_key"
        || name == "columns"
        || name == "kind"
        || name == "left_default"
        || name == "right_default"
}

fn is_in_cogroup(name: &str) -> bool
    ensures { result ≡ list_any (bytes_eq name.now) (row_of op_name.Cogroup) }
{
    name == "left"
        || name == "right"
        || name == "left_key"
        || name == "right_key"
        || name == "left_aggs"
        || name == "right_aggs"
}

fn is_in_bulk(name: &str) -> bool
    ensures { result ≡ list_any (bytes_eq name.now) (row_of op_name.Bulk) }
{
    name == "init"
        || name == "bind"
        || name == "max"
        || name == "body"
        || name == "next"
        || name == "until"
}

fn is_in_delta(name: &str) -> bool
    ensures { result ≡ list_any (bytes_eq name.now) (row_of op_name.Delta) }
{
    name == "solution"
        || name == "workset"
        || name == "bind"
        || name == "key"
        || name == "order"
        || name == "merge"
        || name == "max"
        || name == "body"
        || name == "delta"
        || name == "next"
}
