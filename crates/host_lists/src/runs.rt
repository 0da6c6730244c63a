//! Runs of numbers, in no order, which may overlap.

ghost use Rattle.std.specs.Prelude.{◌≡◌, ℕ, ◌+◌, ◌<◌, ◌≤◌, ◌||◌, IsTrue, true, false, length};
ghost use Rattle.std.specs.Bool.{OnTrue, OnFalse};
ghost use Rattle.host_lists.specs.Runs.{in_run, in_runs, new_in};

/// The numbers from a first up to an end, which is not among them.
#[derive(Clone, Copy, Default)]
pub(crate) struct Run {
    pub(crate) first: u64,
    pub(crate) end: u64,
}

impl Run {
    ghost use Rattle.std.specs.Prelude.{◌≡◌, ℕ, ◌||◌, true};
    ghost use Rattle.std.specs.Bool.{OnTrue};
    ghost use Rattle.host_lists.specs.Runs.{in_run};

    /// Whether it has the number.
    pub(crate) fn has(self, number: u64) -> bool
        ensures { result ≡ in_run self number }
    {
        self.first <= number && number < self.end
    }

    /// Whether it has all numbers of the other one.
    pub(crate) fn covers(self, other: Run) -> bool
        ensures { OnTrue result ((number : ℕ) → in_run other number ≡ true → in_run self number ≡ true) }
    {
        self.first <= other.first && other.end <= self.end
    }

    /// Both as one run where nothing is between them, and else the other one.
    pub(crate) fn joined(self, other: Run) -> Run
        ensures { (number : ℕ) → in_run result number ≡ true
            → (in_run self number || in_run other number) ≡ true }
    {
        if self.first <= other.end && other.first <= self.end {
            Run {
                first: self.first.min(other.first),
                end: self.end.max(other.end),
            }
        } else {
            other
        }
    }
}

// The first number of the run that one of the runs has, or its end.
fn first_known(runs: &[Run], run: Run) -> u64
    requires { run.first ≤ run.end }
    ensures least { run.first ≤ result }
    ensures most { result ≤ run.end }
    ensures before { (number : ℕ) → run.first ≤ number → number < result → in_runs runs.now number ≡ false }
    ensures at { result < run.end → in_runs runs.now result ≡ true }
{
    let mut place = run.end;
    for known in runs {
        let first = known.first.max(run.first);
        if first < known.end && first < place {
            place = first;
        }
    }
    place
}

// The number behind those that one run has from this number on: the number itself where no run has it.
fn end_known(runs: &[Run], number: u64) -> u64
    ensures least { number ≤ result }
    ensures before { (k : ℕ) → number ≤ k → k < result → in_runs runs.now k ≡ true }
    ensures more { in_runs runs.now number ≡ true → number < result }
{
    let mut place = number;
    for known in runs {
        if known.first <= number && place < known.end {
            place = known.end;
        }
    }
    place
}

/// How many numbers of the run none of the runs has.
pub(crate) fn count_new(runs: &[Run], run: Run) -> u64
    requires { run.first ≤ run.end }
    ensures value { result ≡ new_in runs.now run }
    ensures few { result + run.first ≤ run.end }
{
    let mut count = 0;
    let mut number = run.first;
    while number < run.end {
        let known = first_known(
            runs,
            Run {
                first: number,
                end: run.end,
            },
        );
        count += known - number;
        number = end_known(runs, known);
    }
    count
}

/// Has the first of the runs that ends no earlier than the run begins, and begins no later, go on to its end. False where there is none.
pub(crate) fn widen(runs: &mut [Run], run: Run) -> bool
    ensures widened { OnTrue result ((number : ℕ)
        → in_runs runs.new number ≡ (in_runs runs.old number || in_run run number)) }
    ensures kept { OnFalse result (runs.new ≡ runs.old) }
    ensures apart { OnFalse result (in_runs runs.old run.first ≡ false) }
{
    for place in 0..runs.len() {
        let known = runs[place];
        if known.first <= run.first && run.first <= known.end {
            runs[place] = Run {
                first: known.first,
                end: known.end.max(run.end),
            };
            return true;
        }
    }
    false
}
