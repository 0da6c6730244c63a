//! The options of sbatch(1), in one table: of each the long name, the letter, if it has one, and what it takes. An
//! option is added by a row here, with what it says in `entries`.

ghost use Rattle.std.specs.Prelude.{◌≡◌, ◌∷◌, [], MatchOption};
ghost use Rattle.text_values.specs.Arguments.{parts_left, part_of};
ghost use Rattle.sbatch_reader.specs.Table.{options};

use line_words::words::Words;
use text_values::arguments::Takes::{self, Maybe, Nothing, Value};
use text_values::arguments::{Argument, Cursor, next_argument};

/// An option that stands without a value.
#[derive(Clone, Copy)]
pub enum FlagOption {
    Exclusive,
    Hold,
    Parsable,
    Requeue,
    NoRequeue,
    /// `--nice` alone: the usual nice value.
    Nice,
    /// It has no effect.
    WithoutEffect,
}

/// An option that stands with a value.
#[derive(Clone, Copy)]
pub enum ValueOption {
    Account,
    Partition,
    Qos,
    Reservation,
    JobName,
    Tasks,
    CpusPerTask,
    TasksPerNode,
    Nodes,
    Mem,
    MemPerCpu,
    Limit,
    Begin,
    Nice,
    Features,
    Required,
    Excluded,
    Array,
    Dependency,
    Wrap,
    /// Any text is good that isn't too long, and none has an effect.
    WithoutEffect,
}

/// The options of sbatch(1).
pub const OPTIONS: [(&[u8], Option<u8>, Takes<FlagOption, ValueOption>); 37] = [
    (b"account", Some(b'A'), Value(ValueOption::Account)),
    (b"partition", Some(b'p'), Value(ValueOption::Partition)),
    (b"qos", Some(b'q'), Value(ValueOption::Qos)),
    (b"reservation", None, Value(ValueOption::Reservation)),
    (b"job-name", Some(b'J'), Value(ValueOption::JobName)),
    (b"ntasks", Some(b'n'), Value(ValueOption::Tasks)),
    (
        b"cpus-per-task",
        Some(b'c'),
        Value(ValueOption::CpusPerTask),
    ),
    (b"ntasks-per-node", None, Value(ValueOption::TasksPerNode)),
    (b"nodes", Some(b'N'), Value(ValueOption::Nodes)),
    (b"mem", None, Value(ValueOption::Mem)),
    (b"mem-per-cpu", None, Value(ValueOption::MemPerCpu)),
    (b"exclusive", None, Nothing(FlagOption::Exclusive)),
    (b"time", Some(b't'), Value(ValueOption::Limit)),
    (b"begin", Some(b'b'), Value(ValueOption::Begin)),
    (b"nice", None, Maybe(FlagOption::Nice, ValueOption::Nice)),
    (b"hold", Some(b'H'), Nothing(FlagOption::Hold)),
    (b"parsable", None, Nothing(FlagOption::Parsable)),
    (b"requeue", None, Nothing(FlagOption::Requeue)),
    (b"no-requeue", None, Nothing(FlagOption::NoRequeue)),
    (b"constraint", Some(b'C'), Value(ValueOption::Features)),
    (b"nodelist", Some(b'w'), Value(ValueOption::Required)),
    (b"exclude", Some(b'x'), Value(ValueOption::Excluded)),
    (b"array", Some(b'a'), Value(ValueOption::Array)),
    (b"dependency", Some(b'd'), Value(ValueOption::Dependency)),
    (b"wrap", None, Value(ValueOption::Wrap)),
    (b"output", Some(b'o'), Value(ValueOption::WithoutEffect)),
    (b"error", Some(b'e'), Value(ValueOption::WithoutEffect)),
    (b"input", Some(b'i'), Value(ValueOption::WithoutEffect)),
    (b"mail-type", None, Value(ValueOption::WithoutEffect)),
    (b"mail-user", None, Value(ValueOption::WithoutEffect)),
    (b"chdir", Some(b'D'), Value(ValueOption::WithoutEffect)),
    (b"export", None, Value(ValueOption::WithoutEffect)),
    (b"comment", None, Value(ValueOption::WithoutEffect)),
    (b"open-mode", None, Value(ValueOption::WithoutEffect)),
    (b"signal", None, Value(ValueOption::WithoutEffect)),
    (b"verbose", Some(b'v'), Nothing(FlagOption::WithoutEffect)),
    (b"quiet", Some(b'Q'), Nothing(FlagOption::WithoutEffect)),
];

/// The next argument of sbatch(1).
#[tactic(auto, unfolding(crate::specs::Table::options))]
pub fn next_option<'a>(
    words: &'a Words,
    cursor: &mut Cursor,
) -> Option<Argument<'a, FlagOption, ValueOption>>
    ensures { MatchOption result (parts_left options words.entry.now cursor.old ≡ [])
        (λ argument. parts_left options words.entry.now cursor.old
        ≡ part_of argument ∷ parts_left options words.entry.now cursor.new) }
{
    next_argument(&OPTIONS, words, cursor)
}
