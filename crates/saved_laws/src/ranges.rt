//! What the types of requests and of the two files keep of them.

ghost use Rattle.std.specs.Prelude.{◌≤◌};
ghost use Rattle.saved_laws.specs.Kept.{AreFiles, IsInTypes, most_jobs};
ghost use Rattle.saved_laws.specs.Scripts.{KeepsRanges};

use ctl_core::ranges::in_range;
use plain_data::assoc::AssocFile;
use plain_data::conf::{Conf, Settings};
use request_data::request::Request;

// It tells what the type of settings keeps of how many jobs there may be.
fn few_jobs(settings: &Settings)
    ensures { settings.now.max_job_count ≤ most_jobs }
{
    let _ = settings.max_job_count.get();
}

/// It does nothing: its contract tells what the types keep of each two files.
pub fn files_keep_their_ranges(conf: &Conf, assocs: &AssocFile)
    ensures { AreFiles conf.now assocs.now }
{
    few_jobs(&conf.settings);
    let _ = assocs.qos.as_slice().len();
}

fn in_types(request: &Request)
    ensures { IsInTypes request.now }
{
    match request {
        Request::Submit(desc) => {
            if let Some(array) = &desc.array {
                let _ = array.indices.count();
                let _ = array.indices.iter();
            }
        }
        Request::Reconfigure { conf, .. } => few_jobs(&conf.settings),
        Request::CreateReservation(desc) => {
            let _ = desc.start.get();
            let _ = desc.end.get();
        }
        _ => {}
    }
}

/// It does nothing: its contract tells what the type keeps of each request.
pub fn requests_keep_their_ranges(request: &Request)
    ensures { KeepsRanges request.now }
{
    in_range(request);
    in_types(request);
}
