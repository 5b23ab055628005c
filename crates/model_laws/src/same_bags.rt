//! The law of bags: what a plan gives depends on the bags of its inputs alone.
ghost use Rattle.model_laws.specs.LawsOfOps.{OpsKeepBags, OpsGiveLists, SolutionsHaveSingleKeys};
ghost use Rattle.model_laws.specs.LawsOfPlans.{PlansKeepBags};

/// Each operation makes the same bag of the same bags.
pub fn ops_keep_bags()
    ensures { OpsKeepBags }
{}

/// Each operation that goes by keys gives one list of the same bags.
pub fn ops_give_lists()
    ensures { OpsGiveLists }
{}

/// A solution holds at most one row for each key, from the first choice on.
pub fn solutions_have_single_keys()
    ensures { SolutionsHaveSingleKeys }
{}

/// Of inputs that are the same bags any plan gives the same bag, in as many supersteps, and is full
/// alike, for every number of workers and every budget.
pub fn plans_keep_bags()
    ensures { PlansKeepBags }
{}
