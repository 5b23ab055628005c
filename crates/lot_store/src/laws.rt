//! Laws of the definitions in `specs/`. Each function does nothing; its contract is the law.
ghost use Rattle.lot_store.specs.Laws.{StorageLaws};
ghost use Rattle.lot_store.specs.Rows.{RowsAreRead};

/// What is so of the relation that every call over lots keeps.
pub fn storage_laws()
    ensures { StorageLaws }
{}

/// A lot holds the records that its bytes are read as, and no others.
pub fn rows_are_read()
    ensures { RowsAreRead }
{}
