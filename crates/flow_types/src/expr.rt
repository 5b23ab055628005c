use crate::value::Value;
use sqlite_items::Boxed;

/// An operation on one value.
#[derive(Clone, Copy, Debug, PartialEq, Eq)]
pub enum UnOp {
    /// The other Bool.
    Not,
    /// The number of a text's bytes.
    Len,
}

/// An operation on two values. Arithmetic is on Longs and Java's, except that nothing is divided by
/// zero; comparisons are of two values of one kind, by the order of values.
#[derive(Clone, Copy, Debug, PartialEq, Eq)]
pub enum BinOp {
    /// The sum, modulo 2^64.
    Add,
    /// The difference, modulo 2^64.
    Sub,
    /// The product, modulo 2^64.
    Mul,
    /// The quotient toward zero; 0 where the divisor is 0. The least Long by -1 is the least Long.
    Div,
    /// The remainder, with the sign of the dividend; 0 where the divisor is 0.
    Rem,
    /// Equal.
    Eq,
    /// Not equal.
    Ne,
    /// Less.
    Lt,
    /// Less or equal.
    Le,
    /// Greater.
    Gt,
    /// Greater or equal.
    Ge,
    /// Both of two Bools.
    And,
    /// One of two Bools, or both.
    Or,
    /// One text after the other.
    Cat,
}

/// An expression over the fields of a tuple. Its meaning is `val` of `specs/Expressions.antt`.
#[derive(Debug, Drop)]
pub enum Expr {
    /// This value.
    Lit(Value),
    /// A field, by its number from 0.
    Field(u16),
    /// An operation on the value of one expression.
    Un(UnOp, Boxed<Expr>),
    /// An operation on the values of two expressions.
    Bin(BinOp, Boxed<Expr>, Boxed<Expr>),
    /// The second value where the first is true, and the third where it is false.
    If(Boxed<Expr>, Boxed<Expr>, Boxed<Expr>),
    /// The longest prefix of at most so many bytes that ends between code points.
    Cut(Boxed<Expr>, u16),
}
