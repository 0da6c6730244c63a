//! What is to be shown.

use crate::show::{Show, or_dash, push_field, push_marked, push_variant, show_joined};
use plain_data::items::Items;
use plain_data::ranged::Ranged;
use request_data::query::{JobColumn, JobQuery, Piece, Query, StateCode, Who};
use request_data::target::Target;
use small_texts::name::Name;
use table_lines::answer::Unanswered;

impl Show for StateCode {
    fn show(&self, out: &mut Vec<u8>) -> Result<(), Unanswered> {
        push_variant(out, self)
    }
}

impl Show for Items<StateCode> {
    fn show(&self, out: &mut Vec<u8>) -> Result<(), Unanswered> {
        show_joined(out, self.as_slice(), b" ")
    }
}

// A dot, a width and a column, in braces.
fn push_column(
    out: &mut Vec<u8>,
    column: JobColumn,
    width: Option<Ranged<1, 1024>>,
    dot: bool,
) -> Result<(), Unanswered> {
    let opening = if dot { "{." } else { "{" };
    out.extend_from_slice(opening.as_bytes())?;
    if let Some(width) = width {
        width.show(out)?;
        out.push(b' ')?;
    }
    push_variant(out, &column)?;
    out.push(b'}')?;
    Ok(())
}

impl Show for Piece {
    fn show(&self, out: &mut Vec<u8>) -> Result<(), Unanswered> {
        match self {
            Piece::Plain(byte) => {
                out.push(*byte)?;
                Ok(())
            }
            Piece::Column { column, width, dot } => push_column(out, *column, *width, *dot),
        }
    }
}

impl Show for Items<Piece> {
    fn show(&self, out: &mut Vec<u8>) -> Result<(), Unanswered> {
        show_joined(out, self.as_slice(), b"")
    }
}

fn push_who(out: &mut Vec<u8>, who: &Who) -> Result<(), Unanswered> {
    match who {
        Who::Anyone => Ok(()),
        Who::Asker => push_field(out, "me", Some(&true)),
        Who::User(name) => push_field(out, "user", Some(name)),
    }
}

// That no titles are wanted, where it is so.
fn push_titles(out: &mut Vec<u8>, titles: bool) -> Result<(), Unanswered> {
    if titles {
        Ok(())
    } else {
        push_field(out, "titles", Some(&titles))
    }
}

// What a query of jobs says besides `squeue`.
fn push_said(out: &mut Vec<u8>, query: &JobQuery) -> Result<(), Unanswered> {
    push_who(out, &query.who)?;
    push_field(out, "jobs", query.jobs.as_ref())?;
    push_field(out, "partition", query.partition.as_ref())?;
    push_field(out, "states", query.states.as_ref())?;
    push_titles(out, query.titles)?;
    if query.starts {
        push_field(out, "starts", Some(&query.starts))?;
    }
    push_field(out, "format", query.format.as_ref())
}

// Puts a command and its fields behind an answer, or `-` where it has none.
fn push_command(out: &mut Vec<u8>, command: &[u8], fields: Vec<u8>) -> Result<(), Unanswered> {
    let said = or_dash(fields)?;
    out.extend_from_slice(command)?;
    out.extend_from_slice(said.as_slice())?;
    Ok(())
}

fn push_squeue(out: &mut Vec<u8>, query: &JobQuery) -> Result<(), Unanswered> {
    let mut fields = Vec::new(*out.allocator());
    push_said(&mut fields, query)?;
    push_command(out, b"squeue ", fields)
}

fn push_sinfo(out: &mut Vec<u8>, partition: Option<&Name>, titles: bool) -> Result<(), Unanswered> {
    let mut fields = Vec::new(*out.allocator());
    push_field(&mut fields, "partition", partition)?;
    push_titles(&mut fields, titles)?;
    push_command(out, b"sinfo ", fields)
}

fn push_sprio(
    out: &mut Vec<u8>,
    who: &Who,
    jobs: Option<&Items<Target>>,
    titles: bool,
) -> Result<(), Unanswered> {
    let mut fields = Vec::new(*out.allocator());
    push_who(&mut fields, who)?;
    push_field(&mut fields, "jobs", jobs)?;
    push_titles(&mut fields, titles)?;
    push_command(out, b"sprio ", fields)
}

// A command and what it is to show; `-` stands for all.
fn push_shown<T: Show>(
    out: &mut Vec<u8>,
    command: &[u8],
    shown: Option<&T>,
) -> Result<(), Unanswered> {
    match shown {
        Some(value) => push_marked(out, command, value),
        None => {
            out.extend_from_slice(command)?;
            out.push(b'-')?;
            Ok(())
        }
    }
}

/// Puts a query's command behind an answer, with what it says, or `-`.
pub(crate) fn push_query(out: &mut Vec<u8>, query: &Query) -> Result<(), Unanswered> {
    match query {
        Query::Squeue(query) => push_squeue(out, query),
        Query::Sinfo { partition, titles } => push_sinfo(out, partition.as_ref(), *titles),
        Query::Sprio { who, jobs, titles } => push_sprio(out, who, jobs.as_ref(), *titles),
        Query::ShowJob(target) => push_shown(out, b"show job ", target.as_ref()),
        Query::ShowNode(name) => push_shown(out, b"show node ", name.as_ref()),
        Query::ShowPartition(name) => push_shown(out, b"show partition ", name.as_ref()),
        Query::ShowReservation(name) => push_shown(out, b"show reservation ", name.as_ref()),
    }
}
