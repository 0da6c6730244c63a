//! What holds of every replay. Each law is the contract of a function that does nothing.

ghost use Rattle.replay.specs.Laws.{EachIsAnswered, MomentsNeverFall};

/// The moments of events never fall.
pub fn moments_never_fall()
    ensures { MomentsNeverFall }
{}

/// Each submission is answered, once.
pub fn each_is_answered()
    ensures { EachIsAnswered }
{}
