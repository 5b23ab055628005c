/// One item of an order on tuples: a field's number from 0, and whether the greater values of the
/// field stand first.
#[derive(Clone, Copy, Debug, PartialEq, Eq)]
pub struct OrderItem {
    pub field: u16,
    pub down: bool,
}
