//! The records of jobs that have ended, gathered before the controller forgets them.

ghost use Rattle.std.specs.Prelude.{OnOk};
ghost use Rattle.ctl_desk.specs.Desk.{state_of};
ghost use Rattle.replay_run.specs.Replays.{WasLookedAt};

use ctl_desk::own_desk::OwnDesk;
use plain_data::items::Items;
use replay::{self, Replayed};
use reply_data::reply::Reply;
use reply_data::view::{JobRow, Row, View};
use request_data::boxed::Boxed;
use request_data::query::{JobQuery, Query, StateCode, Who};
use small_texts::memory_error::Memory;
use std::alloc::Global;
use std::collections::HashMap;

/// Records by the numbers of their jobs.
#[derive(Drop)]
pub(crate) struct Records {
    rows: HashMap<u32, JobRow>,
}

fn ended_states(alloc: Global) -> Result<Items<StateCode>, Memory> {
    let states = [
        StateCode::Completed,
        StateCode::Cancelled,
        StateCode::Failed,
        StateCode::Timeout,
        StateCode::NodeFail,
    ];
    Ok(Items::from_vec(Vec::from_slice(alloc, &states)?))
}

// The query of all jobs that have ended.
fn ended_jobs(alloc: Global) -> Result<JobQuery, Memory> {
    let states = ended_states(alloc)?;
    Ok(JobQuery {
        who: Who::Anyone,
        jobs: None,
        partition: None,
        states: Some(states),
        titles: false,
        starts: false,
        format: None,
    })
}

fn rows_in(reply: &Reply) -> &[Row] {
    match reply {
        Reply::Shown(view) => view.rows.as_slice(),
        _ => &[],
    }
}

impl Records {
    pub(crate) fn new(alloc: Global) -> Records {
        Records {
            rows: HashMap::new(alloc),
        }
    }

    // Takes a record of a job that none is known of yet.
    fn take(&mut self, row: &JobRow) -> Result<(), Memory> {
        if self.rows.get(&row.id).is_none() {
            self.rows.insert(row.id, row.copy()?)?;
        }
        Ok(())
    }

    // Takes the records that a reply shows.
    fn take_shown(&mut self, reply: &Reply) -> Result<(), Memory> {
        for row in rows_in(reply) {
            if let Row::Job(job) = row {
                self.take(job)?;
            }
        }
        Ok(())
    }

    // The record of the job that this reply gave a number.
    fn record_told(&self, reply: &Reply) -> Option<&JobRow> {
        match reply {
            Reply::Submitted { id } => self.rows.get(id),
            _ => None,
        }
    }

    // Copies them, in the order in which the jobs were taken.
    fn push_in_order(&self, rows: &mut Vec<Row>, replies: &[Reply]) -> Result<(), Memory> {
        for reply in replies {
            if let Some(row) = self.record_told(reply) {
                rows.push(Row::Job(row.copy()?))?;
            }
        }
        Ok(())
    }
}

/// Looks at a desk at what a query shows.
pub(crate) fn look(
    alloc: Global,
    desk: &mut OwnDesk,
    moment: u64,
    query: Query,
) -> Result<Reply, Memory>
    ensures { OnOk result (WasLookedAt (state_of desk.old) (state_of desk.new)) }
{
    replay::look(alloc, desk, moment, query)
}

/// Gathers the records of the jobs at a desk that have ended: of those that are gathered already nothing changes.
pub(crate) fn gather(
    alloc: Global,
    desk: &mut OwnDesk,
    moment: u64,
    records: &mut Records,
) -> Result<(), Memory>
    ensures { OnOk result (WasLookedAt (state_of desk.old) (state_of desk.new)) }
{
    let query = Query::Squeue(Boxed::new(alloc, ended_jobs(alloc)?)?);
    let reply = look(alloc, desk, moment, query)?;
    records.take_shown(&reply)
}

/// The records of all jobs of a replay: those that were gathered, and those that it shows at its end.
pub(crate) fn all_shown(
    alloc: Global,
    end: &Replayed,
    records: &mut Records,
) -> Result<Reply, Memory> {
    records.take_shown(&end.shown)?;
    let mut rows = Vec::new(alloc);
    records.push_in_order(&mut rows, end.replies.as_slice())?;
    Ok(Reply::Shown(View {
        rows: Items::from_vec(rows),
    }))
}
