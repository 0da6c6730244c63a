//! Whether jobs may be requeued for others, and which.

ghost use Rattle.std.specs.Prelude.{◌≡◌};
ghost use Rattle.ctl_pass.specs.Naming;

use plain_data::conf::Settings;
use run_limits::record::QosRecord;

/// Whether preemption is on: `PreemptType` and `PreemptMode` in slurm.conf(5).
pub(crate) fn preempts_at_all(settings: &Settings) -> bool
    ensures { result ≡ Naming.preempts_at_all settings.now }
{
    settings.preempt
}

/// Whether the quality of service names this one. Linear in the names.
pub(crate) fn names(one: &QosRecord, other: &QosRecord) -> bool
    ensures { result ≡ Naming.names one.now other.now }
{
    one.conf.preempt.iter().any(|name| other.conf.name.is(name))
}
