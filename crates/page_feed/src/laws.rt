//! Laws of the definitions in `specs/`. Each function does nothing; its contract is the law.
ghost use Rattle.page_feed.specs.ReachLaw.{AppendingStaysWithinReach};

/// Records that are within reach of their pages stay so, and one more is within reach, where it is
/// appended and touches no more pages than they may.
pub fn appending_stays_within_reach()
    ensures { AppendingStaysWithinReach }
{}
