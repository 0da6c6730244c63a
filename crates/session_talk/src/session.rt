//! A session from its first line to its end.

ghost use Rattle.std.specs.Prelude.{◌≡◌, ◌<◌, ◌∷◌, false, Result, IfOk};
ghost use Rattle.session_talk.specs.declared.fault.Fault.{Fault as OneFault};
ghost use Rattle.session_talk.specs.declared.line.Turned.{Turned as OneTurned};
ghost use Rattle.session_talk.specs.declared.session.How.TheVariants.{Spent};
ghost use Rattle.ctl_desk.specs.Desk.{state_of};
ghost use Rattle.ctl_state.specs.State.{State};
ghost use Rattle.session_text.specs.Heard.{first_reader};
ghost use Rattle.session_text.specs.Actions.{Tells, actions_at_end, open_at_end};
ghost use Rattle.session_text.specs.CallTexts.{end_shown};
ghost use Rattle.session_talk.specs.Talk.{IsTalk, first_post, scene, setting};
ghost use Rattle.session_talk.specs.Turns.{EndsInput, IsTurn, ReadsLine, TurnsBy, behind_line, ended_by, post, turn_of};
ghost use Rattle.session_talk.specs.Working.{Works, WorksLine, out};

use crate::fault::Fault;
use crate::line::{Turned, work_line};
use crate::writing::{tell_wrong, write_text};
use crate::{Found, lines_are_cut, next_line, the_last_line_may_lack_its_end};
use bytes::BytesMut;
use ctl_desk::own_desk::OwnDesk;
use session_text::{Input, LineFault, Place, Reader, start};
use slurm_io::{Shelf, Sink, Source};
use small_texts::memory_error::Memory;
use std::alloc::Global;

/// The most lines that one session may have (own).
pub const MOST_LINES: u64 = 1_048_576;

/// Why a session ended (own).
#[derive(Clone, Copy, Debug, PartialEq, Eq)]
pub enum How {
    /// The input ended.
    Closed,
    /// A line said so.
    Quit,
    /// A line is longer than one may be.
    TooLong,
    /// As many lines were worked as one session may have.
    Spent,
    ReadFault,
    WriteFault,
    Memory,
}

/// How a session ended, and whether anything was refused or wrong. Behind a fault of a write or want of memory the last
/// is told of the lines before the last one alone.
#[derive(Clone, Copy, Debug, PartialEq, Eq)]
pub struct Ended {
    pub how: How,
    pub wrong: bool,
}

// What stays of the lines that were worked.
#[derive(Drop)]
struct Session {
    reader: Reader,
    wrong: bool,
}

// A session that goes on, or has ended.
#[derive(Drop)]
enum Turn {
    GoesOn(Session),
    Ended(Ended),
}

// The end of a session by its last work, which would end it so, behind lines of which something was wrong or not.
fn ended_by(last: Result<bool, Fault>, how: How, wrong: bool) -> Ended
    ensures { result ≡ ended_by last how wrong }
{
    match last {
        Ok(own) => Ended {
            how,
            wrong: wrong || own,
        },
        Err(Fault::Write) => Ended {
            how: How::WriteFault,
            wrong,
        },
        Err(Fault::Memory) => Ended {
            how: How::Memory,
            wrong,
        },
    }
}

// How a session goes on behind a line whose work was done.
fn behind_line(turned: Turned, wrong: bool) -> Turn
    ensures { result ≡ behind_line turned.quits turned wrong }
{
    let wrong = wrong || turned.wrong;
    if turned.quits {
        Turn::Ended(Ended {
            how: How::Quit,
            wrong,
        })
    } else {
        Turn::GoesOn(Session {
            reader: turned.reader,
            wrong,
        })
    }
}

// How a session goes on behind a line.
fn turn_of(worked: Result<Turned, Fault>, wrong: bool) -> Turn
    ensures { result ≡ turn_of worked wrong }
{
    match worked {
        Ok(turned) => behind_line(turned, wrong),
        Err(fault) => Turn::Ended(ended_by(Err(fault), How::Quit, wrong)),
    }
}

// Shows where a line is awaited, and reads the next one.
fn read_line<S: Source, K: Sink>(
    alloc: Global,
    source: &mut S,
    pending: &mut BytesMut,
    output: &mut K,
    input: Input,
) -> Result<Found, Fault>
    ensures { ReadsLine input (S.left source.old) (S.left source.new) (S.read_faults source.old) (S.read_faults source.new)
        pending.old.items pending.new.items (out (K.taken output.old) (K.write_faults output.old))
        (out (K.taken output.new) (K.write_faults output.new)) result }
{
    let mark = input.before();
    match write_text(output, mark) {
        Ok(()) => Ok(next_line(alloc, source, pending)),
        Err(kind) => Err(kind),
    }
}

// Tells of a script that is open at the end of the input.
fn tell_open<K: Sink>(
    alloc: Global,
    output: &mut K,
    place: &Place<'_>,
    reader: &Reader,
) -> Result<bool, Fault>
    ensures { (s : State) → Works place.now.name.now (open_at_end place.now.number reader.now.begun) s s
        (out (K.taken output.old) (K.write_faults output.old))
        (out (K.taken output.new) (K.write_faults output.new)) result }
{
    match &reader.begun {
        Some(_) => tell_wrong(alloc, output, place, LineFault::NoEndLine),
        None => Ok(false),
    }
}

// Tells the end of the input: a script that is open lacks its last line.
fn tell_end<K: Sink>(
    alloc: Global,
    output: &mut K,
    input: Input,
    place: &Place<'_>,
    reader: &Reader,
) -> Result<bool, Fault>
    ensures { (s : State) → Works place.now.name.now (Tells (end_shown input) ∷ open_at_end place.now.number reader.now.begun)
        s s (out (K.taken output.old) (K.write_faults output.old))
        (out (K.taken output.new) (K.write_faults output.new)) result }
{
    match write_text(output, input.at_end()) {
        Ok(()) => tell_open(alloc, output, place, reader),
        Err(kind) => Err(kind),
    }
}

// Tells the end of the input behind its last line, where the next one would be awaited.
fn tell_close<K: Sink>(
    alloc: Global,
    output: &mut K,
    input: Input,
    place: &Place<'_>,
    reader: &Reader,
) -> Result<bool, Fault>
    ensures { (s : State) → Works place.now.name.now (actions_at_end input reader.now place.now.number)
        s s (out (K.taken output.old) (K.write_faults output.old))
        (out (K.taken output.new) (K.write_faults output.new)) result }
{
    let mark = input.before();
    match write_text(output, mark) {
        Ok(()) => tell_end(alloc, output, input, place, reader),
        Err(kind) => Err(kind),
    }
}

// Works a line that was read.
fn line_turn<K: Sink, Q: Shelf>(
    alloc: Global,
    desk: &mut OwnDesk,
    output: &mut K,
    shelf: &mut Q,
    input: Input,
    place: &Place<'_>,
    session: Session,
    line: &[u8],
) -> Turn
    ensures turned { (worked : Result OneTurned OneFault) × (result ≡ turn_of worked session.wrong)
        × WorksLine (Q.files shelf.old) (Q.shelf_faults shelf.old) (Q.shelf_faults shelf.new)
        place.now.name.now input place.now.number session.reader line.now (state_of desk.old) (state_of desk.new)
        (out (K.taken output.old) (K.write_faults output.old))
        (out (K.taken output.new) (K.write_faults output.new)) worked }
    ensures kept { Q.files shelf.new ≡ Q.files shelf.old }
{
    let Session { reader, wrong } = session;
    let worked = work_line(alloc, desk, output, shelf, input, place, reader, line);
    turn_of(worked, wrong)
}

// Tells the end of the input behind a turn that was its last, unless that ended the session.
fn last_turn<K: Sink>(
    alloc: Global,
    output: &mut K,
    input: Input,
    place: &Place<'_>,
    turn: Turn,
) -> Ended
    ensures { EndsInput place.now.name.now input place.now.number turn
        (out (K.taken output.old) (K.write_faults output.old))
        (out (K.taken output.new) (K.write_faults output.new)) result }
{
    match turn {
        Turn::GoesOn(session) => {
            let last = tell_close(alloc, output, input, place, &session.reader);
            ended_by(last, How::Closed, session.wrong)
        }
        Turn::Ended(ended) => ended,
    }
}

// Works what was found in the input, behind so many lines, where a line was awaited.
fn turn_by<K: Sink, Q: Shelf>(
    alloc: Global,
    desk: &mut OwnDesk,
    output: &mut K,
    shelf: &mut Q,
    input: Input,
    name: &[u8],
    before: u64,
    session: Session,
    found: Found,
) -> Turn
    requires { before < MOST_LINES }
    ensures turned { TurnsBy (setting name.now input (Q.files shelf.old)) session before found (state_of desk.old)
        (state_of desk.new) (Q.shelf_faults shelf.old) (Q.shelf_faults shelf.new)
        (out (K.taken output.old) (K.write_faults output.old))
        (out (K.taken output.new) (K.write_faults output.new)) result }
    ensures kept { Q.files shelf.new ≡ Q.files shelf.old }
{
    lines_are_cut();
    the_last_line_may_lack_its_end();
    let number = before + 1;
    let place = Place { name, number };
    match found {
        Found::Line(line) => {
            let text = line.as_slice();
            line_turn(alloc, desk, output, shelf, input, &place, session, text)
        }
        Found::Last(line) => {
            let last_text = line.as_slice();
            let turn = line_turn(
                alloc, desk, output, shelf, input, &place, session, last_text,
            );
            let at_end = last_turn(alloc, output, input, &place, turn);
            Turn::Ended(at_end)
        }
        Found::End => {
            let behind = Place {
                name,
                number: before,
            };
            let last = tell_end(alloc, output, input, &behind, &session.reader);
            let closed = ended_by(last, How::Closed, session.wrong);
            Turn::Ended(closed)
        }
        Found::TooLong => {
            let last = tell_wrong(alloc, output, &place, LineFault::TooLong);
            let too_long = ended_by(last, How::TooLong, session.wrong);
            Turn::Ended(too_long)
        }
        Found::ReadFault => Turn::Ended(Ended {
            how: How::ReadFault,
            wrong: session.wrong,
        }),
        Found::Memory => Turn::Ended(Ended {
            how: How::Memory,
            wrong: session.wrong,
        }),
    }
}

// Reads the next line and works it, or ends the session.
fn take_turn<S: Source, K: Sink, Q: Shelf>(
    alloc: Global,
    desk: &mut OwnDesk,
    source: &mut S,
    pending: &mut BytesMut,
    output: &mut K,
    shelf: &mut Q,
    input: Input,
    name: &[u8],
    before: u64,
    session: Session,
) -> Turn
    requires { before < MOST_LINES }
    ensures turned { IsTurn (setting name.now input (Q.files shelf.old))
        (post session.reader before pending.old.items session.wrong) pending.new.items
        (state_of desk.old) (state_of desk.new)
        (scene (S.left source.old) (S.read_faults source.old) (K.taken output.old) (K.write_faults output.old)
        (Q.shelf_faults shelf.old))
        (scene (S.left source.new) (S.read_faults source.new) (K.taken output.new) (K.write_faults output.new)
        (Q.shelf_faults shelf.new)) result }
    ensures kept { Q.files shelf.new ≡ Q.files shelf.old }
{
    match read_line(alloc, source, pending, output, input) {
        Ok(found) => turn_by(
            alloc, desk, output, shelf, input, name, before, session, found,
        ),
        Err(fault) => Turn::Ended(ended_by(Err(fault), How::Closed, session.wrong)),
    }
}

// The session before its first line.
fn first_session(alloc: Global) -> Result<Session, Memory>
    ensures { IfOk result (λ session. session ≡ record { reader = first_reader; wrong = false }) }
{
    let reader = start(alloc)?;
    Ok(Session {
        reader,
        wrong: false,
    })
}

// The end of a session that may have no more lines.
fn spent(session: Session) -> Ended
    ensures { result ≡ record { how = Spent; wrong = session.wrong } }
{
    Ended {
        how: How::Spent,
        wrong: session.wrong,
    }
}

// Works the lines of an input, from its first one, with room for what is read.
fn work_lines<S: Source, K: Sink, Q: Shelf>(
    alloc: Global,
    desk: &mut OwnDesk,
    source: &mut S,
    pending: &mut BytesMut,
    output: &mut K,
    shelf: &mut Q,
    input: Input,
    name: &[u8],
    session: Session,
) -> Ended
    ensures talked { IsTalk (setting name.now input (Q.files shelf.old))
        (post session.reader 0 pending.old.items session.wrong) (state_of desk.old)
        (scene (S.left source.old) (S.read_faults source.old) (K.taken output.old) (K.write_faults output.old)
        (Q.shelf_faults shelf.old))
        (scene (S.left source.new) (S.read_faults source.new) (K.taken output.new) (K.write_faults output.new)
        (Q.shelf_faults shelf.new)) result }
    ensures kept { Q.files shelf.new ≡ Q.files shelf.old }
{
    lines_are_cut();
    let mut session = session;
    for before in 0..MOST_LINES {
        match take_turn(
            alloc, desk, source, pending, output, shelf, input, name, before, session,
        ) {
            Turn::GoesOn(next) => session = next,
            Turn::Ended(ended) => return ended,
        }
    }
    spent(session)
}

// Works the lines of an input at a desk of its own.
fn talk_on<S: Source, K: Sink, Q: Shelf>(
    alloc: Global,
    desk: OwnDesk,
    source: &mut S,
    output: &mut K,
    shelf: &mut Q,
    input: Input,
    name: &[u8],
    session: Session,
) -> Ended
    requires { session ≡ record { reader = first_reader; wrong = false } }
    ensures talked { IsTalk (setting name.now input (Q.files shelf.old)) first_post (state_of desk)
        (scene (S.left source.old) (S.read_faults source.old) (K.taken output.old) (K.write_faults output.old)
        (Q.shelf_faults shelf.old))
        (scene (S.left source.new) (S.read_faults source.new) (K.taken output.new) (K.write_faults output.new)
        (Q.shelf_faults shelf.new)) result }
    ensures kept { Q.files shelf.new ≡ Q.files shelf.old }
{
    let mut desk = desk;
    let mut pending = BytesMut::new(alloc);
    let ended = work_lines(
        alloc,
        &mut desk,
        source,
        &mut pending,
        output,
        shelf,
        input,
        name,
        session,
    );
    desk.let_go();
    ended
}

/// Works the lines of an input one after another at a desk that nobody else asks, until the input ends, a line says so or
/// one of the other ends comes. Each line is shown, and behind it stand the answers to the blocks that it stands for, or
/// what is wrong with it; the name is that of the file in front of what is refused or wrong. The files that calls name
/// are read from the shelf, each as often as a line names it.
pub fn talk<S: Source, K: Sink, Q: Shelf>(
    alloc: Global,
    desk: OwnDesk,
    source: &mut S,
    output: &mut K,
    shelf: &mut Q,
    input: Input,
    name: &[u8],
) -> Ended
    ensures talked { IsTalk (setting name.now input (Q.files shelf.old)) first_post (state_of desk)
        (scene (S.left source.old) (S.read_faults source.old) (K.taken output.old) (K.write_faults output.old)
        (Q.shelf_faults shelf.old))
        (scene (S.left source.new) (S.read_faults source.new) (K.taken output.new) (K.write_faults output.new)
        (Q.shelf_faults shelf.new)) result }
    ensures kept { Q.files shelf.new ≡ Q.files shelf.old }
{
    match first_session(alloc) {
        Ok(session) => talk_on(alloc, desk, source, output, shelf, input, name, session),
        Err(Memory) => {
            desk.let_go();
            Ended {
                how: How::Memory,
                wrong: false,
            }
        }
    }
}
