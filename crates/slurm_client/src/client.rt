//! The call of a server.

ghost use Rattle.std.specs.Prelude.{◌≡◌, option_copied};
ghost use Rattle.block_frame.specs.Grammar.{IsBlock, spelled};
ghost use Rattle.block_frame.specs.declared.block.Block.{Block};
ghost use Rattle.block_frame.specs.declared.form.Form.TheVariants.{Framed};
ghost use Rattle.slurm_client.specs.Calling.{Completes, IsCalled, sinks};
ghost use Rattle.slurm_client.specs.Requests.{FitsRequest, request};

use crate::Called;
use crate::reading::{Unread, read_frame};
use crate::sending::{request_frame, send};
use crate::showing::show;
use block_frame::{replies_are_one, replies_say_their_end};
use line_words::words::Words;
use slurm_io::{Link, Sink};
use small_texts::name::Name;
use std::alloc::Global;

// Sends a frame, and shows the reply that is read behind it.
fn exchange<L: Link, K: Sink, E: Sink>(
    alloc: Global,
    link: &mut L,
    frame: &[u8],
    output: &mut K,
    errors: &mut E,
) -> Called
    ensures called { (block : Block) → IsBlock Framed block → frame.now ≡ spelled Framed block
        → IsCalled block (L.wire link.old) (L.wire link.new)
        (sinks (K.taken output.old) (K.write_faults output.old) (E.taken errors.old) (E.write_faults errors.old))
        (sinks (K.taken output.new) (K.write_faults output.new) (E.taken errors.new) (E.write_faults errors.new))
        result }
    ensures kept { K.kept_by_writes output.new ≡ K.kept_by_writes output.old }
{
    replies_say_their_end();
    let Ok(()) = send(link, frame) else {
        return Called::WriteFault;
    };
    match read_frame(alloc, link) {
        Ok(reply) => show(reply.as_slice(), output, errors),
        Err(Unread::Bad) => Called::BadReply,
        Err(Unread::ReadFault) => Called::ReadFault,
        Err(Unread::Memory) => Called::Memory,
    }
}

/// Calls a server over a link: one frame is sent, with the user, the words and the script, where there is one, and one
/// reply frame is read and no byte behind it. The reply's text goes to the output where its status is 0, and to the
/// errors where it is 1; a write to the errors that fails changes nothing else. Of the other ends nothing is written.
pub fn client_run<L: Link, K: Sink, E: Sink>(
    alloc: Global,
    link: &mut L,
    user: &Name,
    words: &Words,
    script: Option<&[u8]>,
    output: &mut K,
    errors: &mut E,
) -> Called
    requires { FitsRequest user.now words.now (option_copied script) }
    ensures called { IsCalled (request user.now words.now (option_copied script.entry))
        (L.wire link.old) (L.wire link.new)
        (sinks (K.taken output.old) (K.write_faults output.old) (E.taken errors.old) (E.write_faults errors.old))
        (sinks (K.taken output.new) (K.write_faults output.new) (E.taken errors.new) (E.write_faults errors.new))
        result }

    // Where the link tells its bytes and they begin with a reply frame, that reply is the answer, unless a count of
    // faults rises or memory is wanting.
    ensures complete { Completes (L.wire link.old) (L.wire link.new)
        (sinks (K.taken output.old) (K.write_faults output.old) (E.taken errors.old) (E.write_faults errors.old))
        (sinks (K.taken output.new) (K.write_faults output.new) (E.taken errors.new) (E.write_faults errors.new))
        result }

    // What a write to the output leaves as it was stays: where the output is a link, its input.
    ensures kept { K.kept_by_writes output.new ≡ K.kept_by_writes output.old }
{
    replies_say_their_end();
    replies_are_one();
    let Ok(frame) = request_frame(alloc, user, words, script) else {
        return Called::Memory;
    };
    exchange(alloc, link, frame.as_slice(), output, errors)
}
