ghost use Rattle.plan_check.specs.Refusals.{RefusesFirst};

/// The rule of checking: what a tree is refused for is its first fault. The rule of that code fails at that
/// node, or at the end of that iteration's body; no rule of an earlier code fails there, and each node and
/// each end before passes all.
pub fn check_refuses_first()
    ensures { RefusesFirst }
{}
