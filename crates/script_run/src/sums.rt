//! The sums of a period, over the entries of a book.

ghost use Rattle.std.specs.Prelude.{◌≡◌, [], IfOk};
ghost use Rattle.ctl_state.specs.State.{State};
ghost use Rattle.ctl_desk.specs.History.{IsLegal, present};
ghost use Rattle.sacct_book.specs.Lines as book;
ghost use Rattle.cluster_opening.specs.Restoring.{OpensIn};
ghost use Rattle.script_run.specs.Behind.{sums_text, window_of};

use cluster_opening::{ClusterFiles, controller};
use ctl_desk::entry::{Entry, let_all_go};
use plain_data::period::Period;
use sacct_book::history::add_all;
use sacct_book::lines::lines;
use sacct_book::sums::Sums;
use small_texts::memory_error::Memory;
use std::alloc::Global;

// Sums of the cluster of these files, which has no entries yet.
fn begin(alloc: Global, files: &ClusterFiles) -> Result<Sums, Memory>
    requires good { (s : State) × OpensIn files.now s }
    ensures { (s : State) → OpensIn files.now s → IfOk result (λ sums. sums ≡ record { opening = s; entries = [] }) }
{
    let opening = controller(alloc, files)?;
    match controller(alloc, files) {
        Ok(current) => Sums::new(alloc, opening, current),
        Err(Memory) => {
            opening.let_go();
            Err(Memory)
        }
    }
}

// The lines of a period, what runs being counted until the last moment.
fn lines_of(alloc: Global, sums: &Sums, period: Period) -> Result<Vec<u8>, Memory>
    ensures { IfOk result (λ text. text.items ≡ book.lines sums.now (window_of period) (present sums.now).moment) }
{
    let now = sums.ctl().cluster().moment;
    lines(alloc, sums, period.from, period.until, now)
}

// The lines of a period, where these sums have gone on by entries.
fn lines_behind(
    alloc: Global,
    sums: Sums,
    entries: Vec<Entry>,
    period: Period,
) -> Result<Vec<u8>, Memory>
    requires none { sums.entries ≡ [] }
    requires legal { IsLegal sums.opening entries.items }
    ensures { IfOk result (λ text. text.items
        ≡ book.lines (record { opening = sums.opening; entries = entries.items }) (window_of period)
        (present (record { opening = sums.opening; entries = entries.items })).moment) }
{
    let mut sums = sums;
    let text = match add_all(&mut sums, entries) {
        Ok(()) => lines_of(alloc, &sums, period),
        Err(Memory) => Err(Memory),
    };
    sums.let_go();
    text
}

// The lines of a period, over the entries of a book of these files.
fn summed(
    alloc: Global,
    files: &ClusterFiles,
    entries: Vec<Entry>,
    period: Period,
) -> Result<Vec<u8>, Memory>
    requires legal { (s : State) × OpensIn files.now s × IsLegal s entries.items }
    ensures { (s : State) → OpensIn files.now s → IfOk result (λ text. text.items
        ≡ book.lines (record { opening = s; entries = entries.items }) (window_of period)
        (present (record { opening = s; entries = entries.items })).moment) }
{
    match begin(alloc, files) {
        Ok(sums) => lines_behind(alloc, sums, entries, period),
        Err(Memory) => {
            let_all_go(entries);
            Err(Memory)
        }
    }
}

/// The lines of a period, where sums of one are asked for, over the entries of a book of these files. Each entry is
/// decided once more, at the controller's cost; two controllers are made anew for it.
pub(crate) fn sums_text(
    alloc: Global,
    files: &ClusterFiles,
    entries: Vec<Entry>,
    sacct: Option<Period>,
) -> Result<Vec<u8>, Memory>
    requires legal { (s : State) × OpensIn files.now s × IsLegal s entries.items }
    ensures { (s : State) → OpensIn files.now s → IfOk result (λ text.
        text.items ≡ sums_text sacct (record { opening = s; entries = entries.items })) }
{
    match sacct {
        Some(period) => summed(alloc, files, entries, period),
        None => {
            let_all_go(entries);
            Ok(Vec::new(alloc))
        }
    }
}
