//! The blocks that a call stands for, asked one after another.

ghost use Rattle.std.specs.Prelude.{◌≡◌, ◌||◌, ◌∷◌, [], option_copied};
ghost use Rattle.ctl_desk.specs.Desk.{state_of};
ghost use Rattle.session_text.specs.Blocks.{block_at};
ghost use Rattle.session_text.specs.Moments.{moments_of};
ghost use Rattle.session_text.specs.Actions.{Asks, asking, asking_at, calling, named_script, script_read};
ghost use Rattle.session_talk.specs.Working.{Works, out};

use crate::answer::answer;
use crate::fault::Fault;
use crate::writing::{tell_answer, tell_wrong};
use block_frame::Block;
use ctl_desk::own_desk::OwnDesk;
use session_text::{Call, LineFault, Place, Script, block_at};
use slurm_io::Sink;
use std::alloc::Global;

// Asks a block and tells its answer; whether it is refused.
fn ask_block<K: Sink>(
    alloc: Global,
    desk: &mut OwnDesk,
    output: &mut K,
    place: &Place<'_>,
    block: &Block,
) -> Result<bool, Fault>
    ensures { Works place.now.name.now (Asks place.now.number block.now ∷ []) (state_of desk.old) (state_of desk.new)
        (out (K.taken output.old) (K.write_faults output.old))
        (out (K.taken output.new) (K.write_faults output.new)) result }
{
    let Ok(told) = answer(alloc, desk, block) else {
        return Err(Fault::Memory);
    };
    tell_answer(alloc, output, place, told)
}

// Asks the block that a call stands for at a moment, where it isn't too long.
fn ask_at<K: Sink>(
    alloc: Global,
    desk: &mut OwnDesk,
    output: &mut K,
    place: &Place<'_>,
    call: &Call,
    moment: u64,
    script: Option<&[u8]>,
) -> Result<bool, Fault>
    ensures { Works place.now.name.now
        (asking place.now.number (block_at moment call.now.user call.now.words (option_copied script.entry)) ∷ [])
        (state_of desk.old) (state_of desk.new)
        (out (K.taken output.old) (K.write_faults output.old))
        (out (K.taken output.new) (K.write_faults output.new)) result }
{
    let Ok(found) = block_at(alloc, moment, &call.user, &call.words, script) else {
        return Err(Fault::Memory);
    };
    match found {
        Some(block) => ask_block(alloc, desk, output, place, &block),
        None => tell_wrong(alloc, output, place, LineFault::TooLong),
    }
}

fn either(a: bool, b: bool) -> bool
    ensures { result ≡ (a || b) }
{
    a || b
}

// Asks at each of a call's moments.
fn ask_times<K: Sink>(
    alloc: Global,
    desk: &mut OwnDesk,
    output: &mut K,
    place: &Place<'_>,
    call: &Call,
    script: Option<&[u8]>,
) -> Result<bool, Fault>
    ensures { Works place.now.name.now
        (asking_at place.now.number call.now (option_copied script.entry) (moments_of call.now.times))
        (state_of desk.old) (state_of desk.new)
        (out (K.taken output.old) (K.write_faults output.old))
        (out (K.taken output.new) (K.write_faults output.new)) result }
{
    let mut moment = call.times.start;
    let mut wrong = false;
    for asked in 0..call.times.count {
        let next = moment.saturating_add(call.times.step);
        match ask_at(alloc, desk, output, place, call, next, script) {
            Ok(refused) => {
                let worse = either(wrong, refused);
                wrong = worse;
            }
            Err(kind) => return Err(kind),
        }
        moment = next;
    }
    Ok(wrong)
}

// Works a call whose script is in a file, of which this was read.
fn work_named<K: Sink>(
    alloc: Global,
    desk: &mut OwnDesk,
    output: &mut K,
    place: &Place<'_>,
    call: &Call,
    file: Option<&[u8]>,
) -> Result<bool, Fault>
    ensures { Works place.now.name.now (calling place.now.number call.now (named_script (option_copied file.entry)))
        (state_of desk.old) (state_of desk.new)
        (out (K.taken output.old) (K.write_faults output.old))
        (out (K.taken output.new) (K.write_faults output.new)) result }
{
    match file {
        Some(text) => ask_times(alloc, desk, output, place, call, Some(text)),
        None => tell_wrong(alloc, output, place, LineFault::NoScript),
    }
}

/// Works a call, of whose file this was read where it names one; whether anything of it is refused or wrong.
pub(crate) fn work_call<K: Sink>(
    alloc: Global,
    desk: &mut OwnDesk,
    output: &mut K,
    place: &Place<'_>,
    call: &Call,
    file: Option<&[u8]>,
) -> Result<bool, Fault>
    ensures { Works place.now.name.now
        (calling place.now.number call.now (script_read call.now.script (option_copied file.entry)))
        (state_of desk.old) (state_of desk.new)
        (out (K.taken output.old) (K.write_faults output.old))
        (out (K.taken output.new) (K.write_faults output.new)) result }
{
    match &call.script {
        Script::Absent => ask_times(alloc, desk, output, place, call, None),
        Script::Given(text) => {
            let text = Some(text.as_bytes());
            ask_times(alloc, desk, output, place, call, text)
        }
        Script::Named(_) => work_named(alloc, desk, output, place, call, file),
    }
}
