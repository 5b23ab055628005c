//! The rule of the table, as the base crate wants it.

use crate::opening::Opening;
use crate::view::View;
use atomic_table::{Seat, Table, TableRule};
use segment_core::Segment;
use std::alloc::Global;

/// The mailboxes of all ordered pairs of workers.
pub(crate) struct Mailboxes;

impl TableRule<Segment, View, Opening> for Mailboxes {
    ghost use Rattle.post_table.specs.Rule.{IsPostTable};
    ghost use Rattle.post_table.specs.Views.{opening_view};

    ghost holds = { λ key s. IsPostTable key.workers key.size key.words.items s };

    ghost first = { λ key. opening_view key.workers key.size };
}

/// The words and the slots of all mailboxes.
pub(crate) type Boxes = Table<Segment, View, Opening, Mailboxes, Global>;

/// A seat at them.
pub(crate) type Place = Seat<Segment, View>;
