//! The call of a server by a command.

ghost use Rattle.std.specs.Prelude.{◌≡◌, None, option_copied};
ghost use Rattle.slurm_client.specs.Requests.{FitsRequest, request};
ghost use Rattle.slurm_top.specs.Calls.{IsCall, IsEnd, IsCaused, IsDecided, IsSpent};
ghost use Rattle.slurm_top.specs.Outside.{beside, outside};

use crate::CallEnd;
use crate::call_end::end_of;
use crate::place::script_place;
use crate::reading::read_script;
use crate::refusal::ScriptRefusal;
use program_words::Call;
use slurm_client::{Called, client_run};
use slurm_io::{Failed, Link, Shelf, Sink};
use slurm_net::Host;
use std::alloc::Global;

// Dials the port, calls the server over that link and hangs it up.
fn call_over<L: Link, E: Sink, H: Host>(
    alloc: Global,
    call: &Call,
    script: Option<&[u8]>,
    own: &mut L,
    errors: &mut E,
    host: &mut H,
) -> Result<Called, Failed>
    requires { FitsRequest call.now.user call.now.words (option_copied script) }
    ensures { IsCall (request call.now.user call.now.words (option_copied script.entry))
        (L.wire own.old) (L.wire own.new)
        (beside (E.taken errors.old) (E.write_faults errors.old) (H.hosting host.old))
        (beside (E.taken errors.new) (E.write_faults errors.new) (H.hosting host.new)) result }
{
    let Ok(mut link) = host.dial(call.port) else {
        return Err(Failed);
    };
    let called = client_run(
        alloc,
        &mut link,
        &call.user,
        &call.words,
        script,
        own,
        errors,
    );
    host.hang_up(link);
    Ok(called)
}

// Reads the script and calls the server.
fn read_and_call<Q: Shelf, L: Link, E: Sink, H: Host>(
    alloc: Global,
    call: &Call,
    shelf: &mut Q,
    own: &mut L,
    errors: &mut E,
    host: &mut H,
) -> CallEnd
    requires { FitsRequest call.now.user call.now.words None }
    ensures { IsEnd call.now
        (outside (Q.files shelf.old) (Q.shelf_faults shelf.old) (L.wire own.old))
        (outside (Q.files shelf.new) (Q.shelf_faults shelf.new) (L.wire own.new))
        (beside (E.taken errors.old) (E.write_faults errors.old) (H.hosting host.old))
        (beside (E.taken errors.new) (E.write_faults errors.new) (H.hosting host.new)) result }
{
    let place = script_place(call.command, &call.words);
    let script = match read_script(alloc, place, shelf, own) {
        Ok(script) => script,
        Err(ScriptRefusal::ReadFault) => return CallEnd::ReadFault,
        Err(ScriptRefusal::TooLong) => return CallEnd::Spent,
        Err(ScriptRefusal::Memory) => return CallEnd::Memory,
    };
    let bytes = match &script {
        Some(bytes) => Some(bytes.as_slice()),
        None => None,
    };
    match call_over(alloc, call, bytes, own, errors, host) {
        Ok(called) => end_of(called),
        Err(Failed) => CallEnd::DoorFault,
    }
}

/// Calls a server for a command. Of sbatch(1) the script is read first: from the shelf where its words name a file, and
/// else from the link's input, all of it, but with `--wrap`; of `scontrol reconfigure` the configuration is, which is all
/// of the input. What has more than 65,536 bytes isn't sent. Then the port is dialled, the request is sent and the reply
/// read, as `client_run` does: the reply's text goes to the link's output where its status is 0, and to the errors where
/// it is 1. The dialled link is hung up before the call is over.
pub fn call_server<Q: Shelf, L: Link, E: Sink, H: Host>(
    alloc: Global,
    call: &Call,
    shelf: &mut Q,
    own: &mut L,
    errors: &mut E,
    host: &mut H,
) -> CallEnd
    requires { FitsRequest call.now.user call.now.words None }

    // What was read, sent and written, by the end.
    ensures ended { IsEnd call.now
        (outside (Q.files shelf.old) (Q.shelf_faults shelf.old) (L.wire own.old))
        (outside (Q.files shelf.new) (Q.shelf_faults shelf.new) (L.wire own.new))
        (beside (E.taken errors.old) (E.write_faults errors.old) (H.hosting host.old))
        (beside (E.taken errors.new) (E.write_faults errors.new) (H.hosting host.new)) result }

    // A fault is told only where a count rose.
    ensures caused { IsCaused
        (outside (Q.files shelf.old) (Q.shelf_faults shelf.old) (L.wire own.old))
        (outside (Q.files shelf.new) (Q.shelf_faults shelf.new) (L.wire own.new))
        (H.hosting host.old) (H.hosting host.new) result }

    // Where the host tells what the link has left, that decides the end.
    ensures decided { IsDecided
        (outside (Q.files shelf.old) (Q.shelf_faults shelf.old) (L.wire own.old))
        (outside (Q.files shelf.new) (Q.shelf_faults shelf.new) (L.wire own.new))
        (H.hosting host.old) (H.hosting host.new) result }

    // A script or a configuration that is too long is told as that, and no other is.
    ensures spent { IsSpent call.now
        (outside (Q.files shelf.old) (Q.shelf_faults shelf.old) (L.wire own.old))
        (outside (Q.files shelf.new) (Q.shelf_faults shelf.new) (L.wire own.new)) result }
{
    read_and_call(alloc, call, shelf, own, errors, host)
}
