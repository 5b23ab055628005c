//! Laws of the definitions in `specs/`. Each function does nothing; its contract is the law.
ghost use Rattle.flow_types.specs.LawsOfBags.{SameBagIsEquivalence, SameBagsAgree, StepsKeepBags, SameOfSameBags, RankIsAnOrder, BagsSplit, TestsTellEqual};
ghost use Rattle.flow_types.specs.LawsOfFolds.{FoldsOfSameBags, FoldsSplit, PartsMerge, FoldsGiveLongs};
ghost use Rattle.flow_types.specs.LawsOfTypes.{TypesAreSound, CutsAreLongest};

/// To be the same bag is an equivalence, on lists of any type.
pub fn same_bag_is_equivalence<X>()
    ensures { SameBagIsEquivalence X }
{}

/// Lists of tuples are the same bag by order exactly where they are by counts, by exchanges of
/// places, and by their ordered lists.
pub fn same_bags_agree()
    ensures { SameBagsAgree }
{}

/// Append, map, filter, flat map and sort make the same bag of the same bags, of any types.
pub fn steps_keep_bags<X, Y>()
    ensures { StepsKeepBags X Y }
{}

/// The same bags have one length, the same counts, tests and commuting folds, and one sorted list
/// for each total order in which only equal elements tie.
pub fn same_of_same_bags<X, Y>()
    ensures { SameOfSameBags X Y }
{}

/// A filter in two, appended functions in a flat map, and one flat map inside another make the same
/// bags, of any types.
pub fn bags_split<X, Y, Z>()
    ensures { BagsSplit X Y Z }
{}

/// The tests of equal values and of equal tuples are true exactly of what is equal.
pub fn tests_tell_equal()
    ensures { TestsTellEqual }
{}

/// The rank of tuples is a total order in which only equal tuples tie.
pub fn rank_is_an_order()
    ensures { RankIsAnOrder }
{}

/// The value of a fold is the same of the same bags, and so is what is kept of them.
pub fn folds_of_same_bags()
    ensures { FoldsOfSameBags }
{}

/// Of one list of rows after the other, sums add, and the least and the greatest are those of both.
pub fn folds_split()
    ensures { FoldsSplit }
{}

/// What folds keep of parts of the rows merges, in any order and grouping, to what they keep of all
/// rows, and that finishes to the fold's value.
pub fn parts_merge()
    ensures { PartsMerge }
{}

/// A fold gives a Long's number where its rows hold values and its stated number is a Long's.
pub fn folds_give_longs()
    ensures { FoldsGiveLongs }
{}

/// The value of an expression fits its type, on every row of the schema. Where no part is wider than
/// a text and the literals are values, it is a value that a field can hold; and so columns make a
/// tuple of their types.
pub fn types_are_sound()
    ensures { TypesAreSound }
{}

/// What is left of a text that is cut is its longest prefix in UTF-8 of at most so many bytes.
pub fn cuts_are_longest()
    ensures { CutsAreLongest }
{}
