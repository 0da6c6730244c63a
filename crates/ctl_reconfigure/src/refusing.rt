//! Why another slurm.conf is refused.

ghost use Rattle.std.specs.Prelude.{◌≡◌};
ghost use Rattle.ctl_state.specs.Refusals.{first_refusal};
ghost use Rattle.ctl_state.specs.Soundness.{IsSound};
ghost use Rattle.ctl_state.specs.Index.{IsIndexed};
ghost use Rattle.ctl_state.specs.State.{state_of};
ghost use Rattle.ctl_reconfigure.specs.Refusing.{reconfigure_refusals};

use crate::blocking::blocked;
use ctl_state::cluster::Cluster;
use plain_data::conf::Conf;
use reply_data::refusal::Refusal;
use reply_data::short_name::ShortName;
use small_texts::name::Name;

/// Why a new slurm.conf is refused, if it is: the user isn't privileged, or something can't go or shrink. Linear in the
/// file, the jobs and their parts; it takes no memory.
pub fn refusal_of(cluster: &Cluster, user: &Name, conf: &Conf) -> Option<Refusal>
    requires sound { IsSound (state_of cluster.now) }
    requires indexed { IsIndexed cluster.now }
    ensures { result ≡ first_refusal (reconfigure_refusals (state_of cluster.now) user.now conf.now) }
{
    if !cluster.is_privileged(user) {
        return Some(Refusal::AccessDenied);
    }
    match blocked(cluster, conf) {
        Some(name) => Some(Refusal::CannotShrink {
            name: ShortName::of(name),
        }),
        None => None,
    }
}
