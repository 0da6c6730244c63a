//! A reply's text, as it is written.

ghost use Rattle.std.specs.Prelude.{◌≡◌};
ghost use Rattle.slurm_client.specs.Calling.{IsShown, sinks};

use crate::Called;
use block_frame::read_reply;
use slurm_io::{Failed, Sink, tell, write_all};

/// Writes the text of a reply frame: to the output where its status is 0, and to the errors where it is 1. A write to
/// the errors that fails changes nothing else.
pub fn show<K: Sink, E: Sink>(frame: &[u8], output: &mut K, errors: &mut E) -> Called
    ensures shown { IsShown frame.now
        (sinks (K.taken output.old) (K.write_faults output.old) (E.taken errors.old) (E.write_faults errors.old))
        (sinks (K.taken output.new) (K.write_faults output.new) (E.taken errors.new) (E.write_faults errors.new))
        result }

    // What a write to the output leaves as it was stays.
    ensures kept { K.kept_by_writes output.new ≡ K.kept_by_writes output.old }
{
    let Some(reply) = read_reply(frame) else {
        return Called::BadReply;
    };
    if reply.status > 0 {
        tell(errors, reply.text);
        return Called::Replied {
            status: reply.status,
        };
    }
    match write_all(output, reply.text) {
        Ok(()) => Called::Replied { status: 0 },
        Err(Failed) => Called::WriteFault,
    }
}
