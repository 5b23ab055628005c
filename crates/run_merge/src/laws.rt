ghost use Rattle.run_merge.specs.Laws.{MergedIsAllInOrder};

/// What a merge gives is all rows of its streams, in the order.
pub fn merged_is_all_in_order()
    ensures { MergedIsAllInOrder }
{}
