//! What holds of lists of which members change one after the other. A law is the contract of a function that does
//! nothing.

ghost use Rattle.job_table.specs.Awaiting;
ghost use Rattle.job_table.specs.Usage;
ghost use Rattle.job_table.specs.Walks;

/// A walk over a list changes each member in turn, and in the end all of them.
pub fn a_walk_changes_all<T>()
    ensures begins { Walks.WalkBegins T }
    ensures goes_on { Walks.WalkGoesOn T }
    ensures ends { Walks.WalkEnds T }
    ensures length { Walks.WalkKeepsLength T }
    ensures rest { Walks.WalkKeepsRest T }
    ensures leaves_out { Walks.WalkLeavesOut T }
{}

/// What a change makes of the member at a place depends on that member alone.
pub fn a_change_is_of_its_place<T>()
    ensures same { Walks.SameAtPlace T }
    ensures nothing { Walks.NothingAtPlace T }
    ensures twice { Walks.TwiceAtPlace T }
{}

/// Whoever leaves Running is charged to its association, once: no change charges nothing, and one walk after another
/// charges as one.
pub fn who_leaves_is_charged()
    ensures nothing { Usage.NothingCharged }
    ensures on { Usage.ChargedOn }
{}

/// A job that doesn't start stays its association's, and while it runs on it has used the same.
pub fn jobs_run_on()
    ensures changes { Usage.ChangesRunOn }
    ensures stays { Usage.StaysOn }
    ensures twice { Usage.RunsOnTwice }
{}

/// For whom others wait is found by numbers, arrays and indices, and so stays through changes and where jobs go that
/// don't wait for a start.
pub fn who_is_awaited_stays()
    ensures number { Awaiting.AwaitedByNumber }
    ensures changes { Awaiting.AwaitedThroughChanges }
    ensures others { Awaiting.AwaitedWithoutOthers }
{}
