//! Laws of the definitions that each fold's contract cites, for every fold. The functions do nothing;
//! their contracts are the laws.
ghost use Rattle.fold_laws.specs.Laws.{PartsMergeInAnyOrder, AddingIsMerging, AddingGivesTheFold, FieldsDoNotCount};

/// Parts merge in any order and any grouping, and no rows change nothing: what the parts of pieces of
/// the rows merge to is what is kept of all rows.
pub fn parts_merge_in_any_order()
    ensures { PartsMergeInAnyOrder }
{}

/// To add a row is to merge with what is kept of that row alone.
pub fn adding_is_merging()
    ensures { AddingIsMerging }
{}

/// Adding the rows one after the other and finishing gives the fold's value over all of them.
pub fn adding_gives_the_fold()
    ensures { AddingGivesTheFold }
{}

/// The number of a fold's field doesn't count for what is kept: a fold of one field serves for a fold of
/// its kind of any other.
pub fn fields_do_not_count()
    ensures { FieldsDoNotCount }
{}
