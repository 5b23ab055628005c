use flow_model::op::Op;
use flow_model::plan::{Node, Plan, SchemaList};
use flow_model::rows::{Inputs, Rows};
use flow_types::field_type::FieldType;
use flow_types::name::Name;
use flow_types::row::{Row, sort_rows};
use flow_types::schema::Schema;
use flow_types::text::Text;
use flow_types::value::Value;
use plain_eval::eval::eval_rows;
use sqlite_items::Items;
use std::alloc::Global;

// The makers answer `None` where memory is wanting or a piece hasn't its form.

/// What a node has beside its op and its home.
#[derive(Drop)]
pub struct Place {
    number: u32,
    name: Name,
    inputs: SchemaList,
    schema: Schema,
}

/// The place of the next node. Its name and its schemas are any: no evaluation rests on them.
pub fn next_place(alloc: Global, nodes: &[Node]) -> Option<Place> {
    let number = u32::try_from(nodes.len()).ok()?.checked_add(1)?;
    let name = Name::of(String::from_str(alloc, "node").ok()?)?;
    let schema = Schema::of(Vec::from_slice(alloc, &[FieldType::Long]).ok()?)?;
    Some(Place {
        number,
        name,
        inputs: Items::new(alloc),
        schema,
    })
}

/// Adds a node at its place.
pub fn add(place: Place, nodes: &mut Vec<Node>, home: u32, op: Op) -> Option<()> {
    let Place {
        number,
        name,
        inputs,
        schema,
    } = place;
    let node = Node {
        number,
        name,
        home,
        op,
        inputs,
        schema,
    };
    match nodes.push(node) {
        Ok(()) => Some(()),
        Err(_) => None,
    }
}

/// The value of a field: a Long or a Bool where it is one, and else a text.
pub fn value(alloc: Global, field: &str) -> Option<Value> {
    if let Ok(number) = field.parse::<i64>() {
        return Some(Value::Long(number));
    }
    if let Ok(flag) = field.parse::<bool>() {
        return Some(Value::Bool(flag));
    }
    let text = Text::of(String::from_str(alloc, field).ok()?)?;
    Some(Value::Str(text))
}

/// The row of a text such as `1,ann`.
pub fn row(alloc: Global, line: &str) -> Option<Row> {
    let mut values = Vec::new(alloc);
    for field in line.split(',') {
        let value = value(alloc, field)?;
        values.push(value).ok()?;
    }
    Some(Row::of(values))
}

/// The rows of a text such as `1,ann / 3,cy`.
fn rows(alloc: Global, lines: &str) -> Option<Rows> {
    let mut rows = Vec::new(alloc);
    for line in lines.split(" / ") {
        let row = row(alloc, line)?;
        rows.push(row).ok()?;
    }
    Some(Rows::of(rows))
}

/// The inputs of a text such as `1,ann / 3,cy + 5,7`, one for each source.
pub fn inputs(alloc: Global, texts: &str) -> Option<Inputs> {
    let mut inputs = Vec::new(alloc);
    for lines in texts.split(" + ") {
        let rows = rows(alloc, lines)?;
        inputs.push(rows).ok()?;
    }
    Some(Inputs::of(inputs))
}

/// A row in that form.
fn show(text: &mut String, row: &Row) -> Option<()> {
    let mut first = true;
    for value in row.values() {
        if !first {
            text.push(',').ok()?;
        }
        first = false;
        match value {
            Value::Long(number) => write!(text, "{number}").ok()?,
            Value::Bool(flag) => write!(text, "{flag}").ok()?,
            Value::Str(word) => text.push_str(word.as_str()).ok()?,
        }
    }
    Some(())
}

/// Rows in that form.
fn shown(alloc: Global, rows: &[Row]) -> Option<String> {
    let mut text = String::new(alloc);
    for row in rows {
        if !text.is_empty() {
            text.push_str(" / ").ok()?;
        }
        show(&mut text, row)?;
    }
    Some(text)
}

/// The rows of a plan, in ascending order; its result is the node of this number.
pub fn evaluated(alloc: Global, nodes: Vec<Node>, last: u32, texts: &str) -> Option<String> {
    let plan = Plan {
        segment: 4096,
        nodes: Items::from_vec(nodes),
        result: last,
    };
    let inputs = inputs(alloc, texts)?;
    let mut rows = eval_rows(alloc, &plan, &inputs).ok()?.into_vec();
    sort_rows(&mut rows).ok()?;
    shown(alloc, rows.as_slice())
}
