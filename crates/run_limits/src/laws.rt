//! What holds of every tally. A law is the contract of a function that does nothing.

ghost use Rattle.std.specs.Prelude.{List};
ghost use Rattle.run_limits.specs.declared.record.AssocRecord.{AssocRecord};
ghost use Rattle.run_limits.specs.declared.counted.Counted.{Counted};
ghost use Rattle.run_limits.specs.declared.tally.Tally.{Tally};
ghost use Rattle.run_limits.specs.Tallies.{HaveSameSums, Shows};

/// What a tally shows is decided by the sums over the jobs, and not by their order.
#[tactic(auto, unfolding(crate::specs::Tallies::Shows))]
pub fn sums_decide_what_is_shown()
    ensures { (assocs : List AssocRecord) (tally : Tally) (some others : List Counted)
        → HaveSameSums some others → Shows assocs tally some → Shows assocs tally others }
{}
