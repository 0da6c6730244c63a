//! What the options of an account's or a user's line say.

ghost use Rattle.std.specs.Prelude.{ℕ, ◌≡◌, IfOk, OnOk, IsErrOf, Ok, Err, Some, None};
ghost use Rattle.assoc_reader.specs.Words.{assoc_said};
ghost use Rattle.assoc_reader.specs.declared.refusal.AssocKind.{AssocKind};

use crate::keys::{AssocKey, assoc_key};
use crate::options::{first_option, options_behind, read_pair};
use crate::refusal::{AssocKind, Fault};
use crate::values::{read_cpus, read_limit};
use plain_data::assoc::AssocLimits;
use plain_data::ranged::Ranged;
use small_texts::name::Name;
use std::alloc::Global;
use text_values::names::read_name;
use text_values::numbers::read_number;
use text_values::refusal::ValueRefusal;

/// What the options of an account or of a user say, sacctmgr(1).
#[derive(Drop)]
pub struct AssocWords {
    /// The share of its account, against those of the other children; 1 where no option gives one.
    pub shares: Ranged<0, 65535>,
    pub default_account: Option<Name>,
    pub limits: AssocLimits,
}

impl AssocWords {
    ghost use Rattle.std.specs.Prelude.{ℕ, ◌≡◌, OnOk, IsErrOf, Ok, Err, Some, None};
    ghost use Rattle.assoc_reader.specs.Keys.{assoc_key};
    ghost use Rattle.assoc_reader.specs.Options.{with_option};
    ghost use Rattle.assoc_reader.specs.Words.{no_assoc_words, with_assoc_value};
    ghost use Rattle.assoc_reader.specs.declared.refusal.AssocKind.{AssocKind};

    #[tactic(auto, unfolding(crate::specs::Words::no_assoc_words))]
    fn new() -> AssocWords
        ensures { result ≡ no_assoc_words }
    {
        AssocWords {
            shares: Ranged::new(1),
            default_account: None,
            limits: AssocLimits {
                grp_jobs: None,
                grp_submit: None,
                grp_cpus: None,
                max_jobs: None,
                max_submit: None,
            },
        }
    }

    #[tactic(auto, unfolding(crate::specs::Words::with_assoc_value))]
    fn put(&mut self, alloc: Global, key: AssocKey, text: &[u8]) -> Result<(), ValueRefusal>
        ensures value { OnOk result (with_assoc_value self.old key text.now ≡ Some self.new) }
        ensures refused { IsErrOf result ValueRefusal.BadValue → with_assoc_value self.old key text.now ≡ None }
    {
        let bad = ValueRefusal::BadValue;
        match key {
            AssocKey::Fairshare => self.shares = read_number(text).ok_or(bad)?,
            AssocKey::GrpJobs => self.limits.grp_jobs = Some(read_limit(text).ok_or(bad)?),
            AssocKey::GrpSubmitJobs => self.limits.grp_submit = Some(read_limit(text).ok_or(bad)?),
            AssocKey::GrpTres => self.limits.grp_cpus = Some(read_cpus(text).ok_or(bad)?),
            AssocKey::MaxJobs => self.limits.max_jobs = Some(read_limit(text).ok_or(bad)?),
            AssocKey::MaxSubmitJobs => self.limits.max_submit = Some(read_limit(text).ok_or(bad)?),
            AssocKey::DefaultAccount => self.default_account = Some(read_name(alloc, text)?),
            AssocKey::WithoutEffect => {}
        }
        Ok(())
    }

    // Takes up what an option says. After an error the words are of no use.
    #[tactic(auto, unfolding(crate::specs::Options::with_option))]
    fn read_option(&mut self, alloc: Global, user: bool, option: &[u8]) -> Result<(), Fault>
        ensures value { OnOk result (with_option (assoc_key user) with_assoc_value self.old option.now ≡ Ok self.new) }
        ensures refused { (k : AssocKind) → IsErrOf result (Fault.Refused k)
            → with_option (assoc_key user) with_assoc_value self.old option.now ≡ Err k }
    {
        let Some(pair) = read_pair(option) else {
            return Err(Fault::Refused(AssocKind::BadLine));
        };
        let Some(key) = assoc_key(user, pair.key) else {
            return Err(Fault::Refused(AssocKind::UnknownKey));
        };
        self.put(alloc, key, pair.value)?;
        Ok(())
    }
}

/// What the options behind a user's name say, or behind an account's. It costs a few steps for each byte, and a look
/// through the keys for each option.
#[tactic(auto, unfolding(crate::specs::Words::assoc_said))]
pub fn read_assoc_words(alloc: Global, user: bool, rest: &[u8]) -> Result<AssocWords, Fault>
    ensures value { IfOk result (λ words. assoc_said user rest.now ≡ Ok words) }
    ensures refused { (k : AssocKind) → IsErrOf result (Fault.Refused k) → assoc_said user rest.now ≡ Err k }
{
    let Some(options) = options_behind(rest) else {
        return Err(Fault::Refused(AssocKind::BadLine));
    };
    let mut words = AssocWords::new();
    let mut left = options;
    while let Some(text) = left {
        let (option, behind) = first_option(text);
        words.read_option(alloc, user, option)?;
        left = behind;
    }
    Ok(words)
}
