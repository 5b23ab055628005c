/// Why a plan is refused. The codes and their rules are this project's own.
#[derive(Clone, Copy, Debug, PartialEq, Eq)]
pub enum PlanCode {
    /// The file has more than 1,048,576 bytes.
    TooBig,
    /// The bytes are no JSON, as `serde_json` reads it.
    BadJson,
    /// The plan's own members aren't a plan's.
    BadPlan,
    /// There are more than 64 nodes.
    TooMany,
    /// A node is no object, its op is unknown, or a member is missing, unknown or not of its form.
    BadNode,
    /// A name hasn't a name's form.
    BadName,
    /// An expression or a literal hasn't its form, or is past a limit.
    BadExpr,
    /// A name or bind name stands before.
    Duplicate,
    /// A source or an iteration in a body, or a probe outside a delta's body.
    Misplaced,
    /// A name isn't visible where it is referred to.
    UnknownName,
    /// A field's number is past its schema, or two keys that belong together differ in length.
    BadField,
    /// An expression has no type, or something has another type than its place takes.
    BadTypes,
    /// A schema or a text's bound is past its limit.
    BadWidth,
    /// What a superstep makes doesn't fit what it takes the place of.
    NoFit,
    /// The result names no node of the outer list.
    BadResult,
    /// What the plan asks for isn't built yet.
    NotBuilt,
}
