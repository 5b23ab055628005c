ghost use Rattle.plan_need.specs.Worked.{WorkedNumbers};

/// Worked numbers of two plans and of the empty key: the formulas, computed.
pub fn worked_numbers()
    ensures { WorkedNumbers }
{}
