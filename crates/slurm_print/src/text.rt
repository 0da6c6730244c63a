//! The text of a reply.

ghost use Rattle.std.specs.Prelude.{◌≡◌, ◌++◌, IfOk, OnOk};
ghost use Rattle.slurm_print.specs.Text.{text_of, text_under, command_of, is_parsable, submitted_text, passed_line, done_text, created_line, idle_text, shown_text};

use crate::heading::{Heading, heading_of};
use crate::orders::push_orders;
use crate::refusal::push_refusal;
use reply_data::reply::Reply;
use reply_data::view::View;
use request_data::request::Request;
use small_texts::memory_error::Memory;
use small_texts::name::Name;
use small_texts::pieces::{push_labelled, push_number, push_text};
use std::alloc::Global;
use table_texts::show::push_show;
use table_texts::sinfo::push_sinfo;
use table_texts::sprio::push_sprio;
use table_texts::squeue::push_view;
use table_texts::values::push_pair;

/// The text that answers a request. Linear in the text, but for the names of nodes, which are sorted, and for each part
/// of a job in the bits of a row of processors.
pub fn text(alloc: Global, request: &Request, reply: &Reply) -> Result<Vec<u8>, Memory>
    ensures { IfOk result (λ text. text.items ≡ text_of request.now reply.now) }
{
    let heading = heading_of(request)?;
    let made = text_under(alloc, &heading, reply);
    heading.let_go();
    made
}

/// The text that answers the request of this heading. It costs what `text` costs.
pub fn text_under(alloc: Global, heading: &Heading, reply: &Reply) -> Result<Vec<u8>, Memory>
    ensures { IfOk result (λ text. text.items ≡ text_under heading.now reply.now) }
{
    let mut out = Vec::new(alloc);
    push_reply(alloc, &mut out, heading, reply)?;
    Ok(out)
}

fn push_reply(
    alloc: Global,
    out: &mut Vec<u8>,
    heading: &Heading,
    reply: &Reply,
) -> Result<(), Memory>
    ensures { OnOk result (out.new.items ≡ out.old.items ++ text_under heading.now reply.now) }
{
    match reply {
        Reply::Submitted { id } => push_submitted(out, is_parsable(heading), *id),
        Reply::Done => push_done(out, heading),
        Reply::Passed {
            ended,
            started,
            planned,
        } => push_passed(out, *ended, *started, *planned),
        Reply::Orders(orders) => push_orders(out, orders),
        Reply::Idle => push_idle(out, heading),
        Reply::Shown(view) => push_shown(alloc, out, heading, view),
        Reply::Refused(refusal) => push_refusal(out, command(heading), refusal),
    }
}

// Whether the answer is the number alone: `--parsable` of sbatch(1).
fn is_parsable(heading: &Heading) -> bool
    ensures { result ≡ is_parsable heading.now }
{
    match heading {
        Heading::Sbatch { parsable } => *parsable,
        _ => false,
    }
}

fn push_submitted(out: &mut Vec<u8>, parsable: bool, id: u32) -> Result<(), Memory>
    ensures { OnOk result (out.new.items ≡ out.old.items ++ submitted_text parsable id) }
{
    if parsable {
        push_number(out, u64::from(id))?;
    } else {
        push_labelled(out, b"Submitted batch job ", u64::from(id))?;
    }
    push_text(out, b"\n")
}

// What was done is told of a reservation alone that was made. "create" in scontrol(1).
fn push_done(out: &mut Vec<u8>, heading: &Heading) -> Result<(), Memory>
    ensures { OnOk result (out.new.items ≡ out.old.items ++ done_text heading.now) }
{
    match heading {
        Heading::CreateReservation(name) => push_created(out, name),
        _ => Ok(()),
    }
}

fn push_created(out: &mut Vec<u8>, name: &Name) -> Result<(), Memory>
    ensures { OnOk result (out.new.items ≡ out.old.items ++ created_line name.now) }
{
    push_pair(out, b"Reservation created: ", name.as_bytes())?;
    push_text(out, b"\n")?;
    Ok(())
}

fn push_passed(out: &mut Vec<u8>, ended: u32, started: u32, planned: u32) -> Result<(), Memory>
    ensures { OnOk result (out.new.items ≡ out.old.items ++ passed_line ended started planned) }
{
    push_labelled(out, b"pass: ended ", u64::from(ended))?;
    push_labelled(out, b" started ", u64::from(started))?;
    push_labelled(out, b" planned ", u64::from(planned))?;
    push_text(out, b"\n")?;
    Ok(())
}

fn push_idle(out: &mut Vec<u8>, heading: &Heading) -> Result<(), Memory>
    ensures { OnOk result (out.new.items ≡ out.old.items ++ idle_text heading.now) }
{
    match heading {
        Heading::Pass => push_text(out, b"pass: idle\n"),
        _ => Ok(()),
    }
}

// Only a query is answered by a view.
fn push_shown(
    alloc: Global,
    out: &mut Vec<u8>,
    heading: &Heading,
    view: &View,
) -> Result<(), Memory>
    ensures { OnOk result (out.new.items ≡ out.old.items ++ shown_text heading.now view.now) }
{
    match heading {
        Heading::Squeue(query) => push_view(alloc, out, query, view),
        Heading::Sinfo { titles } => push_sinfo(alloc, out, *titles, view),
        Heading::Sprio { titles } => push_sprio(out, *titles, view),
        Heading::Show => push_show(alloc, out, view),
        _ => Ok(()),
    }
}

fn command(heading: &Heading) -> &'static [u8]
    ensures { result.now ≡ command_of heading.now }
{
    match heading {
        Heading::Sbatch { .. } => b"sbatch",
        Heading::Scancel => b"scancel",
        Heading::Report => b"report",
        Heading::Pass => b"pass",
        Heading::Squeue(_) => b"squeue",
        Heading::Sinfo { .. } => b"sinfo",
        Heading::Sprio { .. } => b"sprio",
        _ => b"scontrol",
    }
}
