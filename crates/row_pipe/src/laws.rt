//! Laws of the definitions in `specs/`. Each function does nothing; its contract is the law.
ghost use Rattle.row_pipe.specs.Laws.{NarrowRowsStayWithin, NodesMayBeOpened};

/// Where the widest record that is given touches no more pages than a lot's reach, every record that is given
/// does.
pub fn narrow_rows_stay_within()
    ensures { NarrowRowsStayWithin }
{}

/// A map, a filter, a flat map or a union of an accepted plan is what `RowPipe::open` asks for.
pub fn nodes_may_be_opened()
    ensures { NodesMayBeOpened }
{}
