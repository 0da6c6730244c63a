// Gates at which one part of a server waits for another.

ghost use Rattle.std.specs.Prelude.{◌≡◌, ◌+◌, vec_len, IfOk};

use crate::step::{Act, Part, Step};
use slurm_net::{Gate, Point};
use std::alloc::{AllocError, Global};
use std::sync::atomic::{AtomicBool, Ordering};
use std::thread::yield_now;

/// How many events there are: 0 to 31.
const EVENTS: usize = 32;

/// How often a gate looks for what it waits for.
const MOST_LOOKS: u32 = 10_000_000;

/// What has come, whether some gate has given up waiting, and whether one was told a point at which its part isn't.
#[derive(Drop)]
pub struct Board {
    events: Vec<AtomicBool>,
    gave_up: AtomicBool,
    misled: AtomicBool,
}

impl Board {
    /// A board of events of which none has come.
    pub fn new(alloc: Global) -> Result<Board, AllocError> {
        let mut events = Vec::with_capacity(alloc, EVENTS)?;
        for _ in 0..EVENTS {
            events.push(AtomicBool::new(false))?;
        }
        Ok(Board {
            events,
            gave_up: AtomicBool::new(false),
            misled: AtomicBool::new(false),
        })
    }

    /// Whether some gate has given up waiting.
    pub fn gave_up(&self) -> bool {
        self.gave_up.load(Ordering::SeqCst)
    }

    /// Whether some gate was told a point at which its part isn't.
    pub fn misled(&self) -> bool {
        self.misled.load(Ordering::SeqCst)
    }

    // Looks until this has come, and tells whether it has.
    fn look_for(&self, event: &AtomicBool) -> bool {
        for _ in 0..MOST_LOOKS {
            if event.load(Ordering::SeqCst) {
                return true;
            }
            yield_now();
        }
        false
    }

    // Does what a step says. One of an event that there isn't does nothing.
    fn make(&self, step: Step) {
        let Some(event) = self.events.get(step.event) else {
            return;
        };
        match step.act {
            Act::Tells => event.store(true, Ordering::SeqCst),
            Act::Waits => {
                if !self.look_for(event) {
                    self.gave_up.store(true, Ordering::SeqCst);
                }
            }
        }
    }
}

/// The gate of a part, which goes by these steps.
#[derive(Drop)]
pub struct StepGate<'a> {
    part: Part,
    steps: &'a [Step],
    board: &'a Board,
    /// How often it was passed.
    passed: u32,
}

// Where a part stands when it passes its gate for this time: a worker before and behind each connection, the planner
// before each plan and before it is kept.
fn point_of(part: Part, pass: u32) -> Point {
    match (part, pass % 2) {
        (Part::Worker(_), 1) => Point::BeforeAnswer,
        (Part::Worker(_), _) => Point::AfterAnswer,
        (Part::Planner, 1) => Point::BeforePlan,
        (Part::Planner, _) => Point::BeforeCommit,
    }
}

impl<'a> Gate for StepGate<'a> {
    fn at(&mut self, point: Point) {
        self.passed = self.passed.saturating_add(1);
        if point != point_of(self.part, self.passed) {
            self.board.misled.store(true, Ordering::SeqCst);
        }
        for step in self.steps {
            if step.part == self.part && step.pass == self.passed {
                self.board.make(*step);
            }
        }
    }
}

// A gate that was not passed yet.
fn gate_of<'a>(part: Part, steps: &'a [Step], board: &'a Board) -> StepGate<'a> {
    StepGate {
        part,
        steps,
        board,
        passed: 0,
    }
}

// The gates of so many workers, in order.
fn worker_gates<'a>(
    alloc: Global,
    workers: u32,
    steps: &'a [Step],
    board: &'a Board,
) -> Result<Vec<StepGate<'a>>, AllocError>
    ensures { IfOk result (λ gates. vec_len gates ≡ workers) }
{
    let mut gates = Vec::new(alloc);
    for worker in 0..workers {
        let part = Part::Worker(worker.saturating_add(1));
        gates.push(gate_of(part, steps, board))?;
    }
    Ok(gates)
}

/// The gates of so many workers, in order, and then the planner's.
pub fn gates_of<'a>(
    alloc: Global,
    workers: u32,
    steps: &'a [Step],
    board: &'a Board,
) -> Result<Vec<StepGate<'a>>, AllocError>
    ensures { IfOk result (λ gates. vec_len gates ≡ workers + 1) }
{
    let mut gates = worker_gates(alloc, workers, steps, board)?;
    gates.push(gate_of(Part::Planner, steps, board))?;
    Ok(gates)
}
