//! Jobs by their numbers.

ghost use Rattle.std.specs.Prelude.{◌≡◌};
ghost use Rattle.text_values.specs.Jobs.{job_in};

use crate::numbers::read_u32;
use small_texts::fields::{UpToThree, up_to_three};

/// The number of a job, or of an array with the index of a task.
#[tactic(auto, unfolding(crate::specs::Jobs::job_of))]
pub fn read_job_id(text: &[u8]) -> Option<(u32, Option<u32>)>
    ensures { result ≡ job_in text.now }
{
    match up_to_three(text, b'_') {
        UpToThree::One(id) => Some((read_u32(id)?, None)),
        UpToThree::Two(id, index) => {
            let id = read_u32(id)?;
            let index = read_u32(index)?;
            Some((id, Some(index)))
        }
        _ => None,
    }
}
