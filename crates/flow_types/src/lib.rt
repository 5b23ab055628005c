//! Values, tuples and their order, bags, schemas and expressions: what every other crate speaks
//! of. It stands on nothing of the project but the type for want of memory.
//!
//! Its one promise: constructors answer `None` exactly where a text, a name or a schema hasn't its
//! form, and `compare` is the order of values. Each definition, of expressions and bags too, stands
//! in `specs/`, where it says whose rule it is. Laws of these definitions are the contracts of the
//! functions in `laws`, which do nothing.
#![tactic(auto)]

pub mod agg;
pub mod arithmetic;
pub mod decimal;
pub mod expr;
pub mod field_type;
pub mod laws;
pub mod name;
pub mod order_item;
pub mod row;
pub mod schema;
pub mod seg_size;
pub mod text;
pub mod value;
