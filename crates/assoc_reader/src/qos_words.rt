//! What the options of a quality of service say.

ghost use Rattle.std.specs.Prelude.{ℕ, ◌≡◌, bytes_eq, IfOk, OnOk, IsErrOf, Ok, Err, Some, None};
ghost use Rattle.std.specs.HashSet.{contains};
ghost use Rattle.assoc_reader.specs.Words.{qos_said};
ghost use Rattle.assoc_reader.specs.declared.refusal.AssocKind.{AssocKind};

use crate::keys::{QosKey, qos_key};
use crate::known_qos::read_known_names;
use crate::options::{first_option, options_behind, read_pair};
use crate::refusal::{AssocKind, Fault};
use crate::values::{read_cpus, read_limit};
use plain_data::assoc::QosLimits;
use plain_data::items::Items;
use small_texts::name::Name;
use std::alloc::Global;
use std::collections::HashSet;
use text_values::numbers::read_u32;
use text_values::refusal::ValueRefusal;
use text_values::times::read_limit as read_time;

/// What the options of a quality of service say (own).
#[derive(Drop)]
pub struct QosWords {
    pub priority: u32,
    pub limits: QosLimits,
    /// The qualities of service that it preempts; without a list there are none.
    pub preempt: Items<Name>,
}

impl QosWords {
    ghost use Rattle.std.specs.Prelude.{ℕ, ◌≡◌, bytes_eq, OnOk, IsErrOf, Ok, Err, Some, None};
    ghost use Rattle.std.specs.HashSet.{contains};
    ghost use Rattle.assoc_reader.specs.Keys.{qos_key};
    ghost use Rattle.assoc_reader.specs.Options.{with_option};
    ghost use Rattle.assoc_reader.specs.Words.{no_qos_words, with_qos_value};
    ghost use Rattle.assoc_reader.specs.declared.refusal.AssocKind.{AssocKind};

    /// A line without options.
    #[tactic(auto, unfolding(crate::specs::Words::no_qos_words))]
    pub fn new(alloc: Global) -> QosWords
        ensures { result ≡ no_qos_words }
    {
        QosWords {
            priority: 0,
            limits: QosLimits {
                grp_jobs: None,
                grp_submit: None,
                grp_cpus: None,
                user_jobs: None,
                user_submit: None,
                user_cpus: None,
                max_wall: None,
            },
            preempt: Items::from_vec(Vec::new(alloc)),
        }
    }

    #[tactic(auto, unfolding(crate::specs::Words::with_qos_value))]
    fn put(
        &mut self,
        alloc: Global,
        known: &HashSet<Name>,
        key: QosKey,
        text: &[u8],
    ) -> Result<(), ValueRefusal>
        ensures value { OnOk result
            (with_qos_value (contains bytes_eq known.now) self.old key text.now ≡ Some self.new) }
        ensures refused { IsErrOf result ValueRefusal.BadValue
            → with_qos_value (contains bytes_eq known.now) self.old key text.now ≡ None }
    {
        let bad = ValueRefusal::BadValue;
        match key {
            QosKey::Priority => self.priority = read_u32(text).ok_or(bad)?,
            QosKey::GrpJobs => self.limits.grp_jobs = Some(read_limit(text).ok_or(bad)?),
            QosKey::GrpSubmitJobs => self.limits.grp_submit = Some(read_limit(text).ok_or(bad)?),
            QosKey::GrpTres => self.limits.grp_cpus = Some(read_cpus(text).ok_or(bad)?),
            QosKey::MaxJobsPerUser => self.limits.user_jobs = Some(read_limit(text).ok_or(bad)?),
            QosKey::MaxSubmitJobsPerUser => {
                self.limits.user_submit = Some(read_limit(text).ok_or(bad)?);
            }
            QosKey::MaxTresPerUser => self.limits.user_cpus = Some(read_cpus(text).ok_or(bad)?),
            QosKey::MaxWall => self.limits.max_wall = Some(read_time(text).ok_or(bad)?),
            QosKey::Preempt => self.preempt = read_known_names(alloc, known, text)?,
            QosKey::WithoutEffect => {}
        }
        Ok(())
    }

    // Takes up what an option says. After an error the words are of no use.
    #[tactic(auto, unfolding(crate::specs::Options::with_option))]
    fn read_option(
        &mut self,
        alloc: Global,
        known: &HashSet<Name>,
        option: &[u8],
    ) -> Result<(), Fault>
        ensures value { OnOk result
            (with_option qos_key (with_qos_value (contains bytes_eq known.now)) self.old option.now ≡ Ok self.new) }
        ensures refused { (k : AssocKind) → IsErrOf result (Fault.Refused k)
            → with_option qos_key (with_qos_value (contains bytes_eq known.now)) self.old option.now ≡ Err k }
    {
        let Some(pair) = read_pair(option) else {
            return Err(Fault::Refused(AssocKind::BadLine));
        };
        let Some(key) = qos_key(pair.key) else {
            return Err(Fault::Refused(AssocKind::UnknownKey));
        };
        self.put(alloc, known, key, pair.value)?;
        Ok(())
    }
}

/// What the options behind the name of a quality of service say, where it is told which names its list may have. It
/// costs a few steps for each byte, a look through the keys for each option, and a look-up for each name.
#[tactic(auto, unfolding(crate::specs::Words::qos_said))]
pub fn read_qos_words(alloc: Global, known: &HashSet<Name>, rest: &[u8]) -> Result<QosWords, Fault>
    ensures value { IfOk result (λ words. qos_said (contains bytes_eq known.now) rest.now ≡ Ok words) }
    ensures refused { (k : AssocKind) → IsErrOf result (Fault.Refused k)
        → qos_said (contains bytes_eq known.now) rest.now ≡ Err k }
{
    let Some(options) = options_behind(rest) else {
        return Err(Fault::Refused(AssocKind::BadLine));
    };
    let mut words = QosWords::new(alloc);
    let mut left = options;
    while let Some(text) = left {
        let (option, behind) = first_option(text);
        words.read_option(alloc, known, option)?;
        left = behind;
    }
    Ok(words)
}
