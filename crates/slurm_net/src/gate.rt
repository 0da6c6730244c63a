// Where a test may hold a part of the server.

/// A place in the server's work (own).
#[derive(Clone, Copy, Debug, PartialEq, Eq)]
pub enum Point {
    /// The planner is about to plan.
    BeforePlan,
    /// A plan is made and not yet kept.
    BeforeCommit,
    /// A connection came, and nothing of it is read yet.
    BeforeAnswer,
    /// A connection was served to its end.
    AfterAnswer,
}

/// Something that is told where the server's work stands, and may hold it there (own). It changes nothing that a
/// contract sees.
pub trait Gate {
    fn at(&mut self, point: Point);
}

/// The gate that never holds anything.
#[derive(Clone, Copy, Debug, PartialEq, Eq)]
pub struct NoGate;

impl Gate for NoGate {
    fn at(&mut self, _point: Point) {}
}
