/// What is wrong with an input.
#[derive(Clone, Copy, Debug, PartialEq, Eq)]
pub enum InputKind {
    /// A line has an odd number of quotes.
    OddQuotes,
    /// A line gives more than one record.
    Split,
    /// A line's number of fields isn't the schema's.
    FieldCount,
    /// A field isn't a Long.
    BadLong,
    /// A field isn't a Bool.
    BadBool,
    /// A field isn't UTF-8.
    BadText,
    /// A text has more bytes than its field's bound.
    TooLong,
    /// A line has more than 65,536 bytes.
    LineTooLong,
    /// The input has more than 2^40 bytes.
    Endless,
    /// The input isn't of a form that is served yet.
    NotBuilt,
}
