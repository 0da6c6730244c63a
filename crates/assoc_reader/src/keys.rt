//! The words that begin lines of an association file, and the keys of their options, as sacctmgr(1) names them; the
//! line of a quality of service and its keys are this project's own. Letters count in their case.

ghost use Rattle.std.specs.Prelude.{◌≡◌, map};
ghost use Rattle.assoc_reader.specs.Keys.{named, line_kind, account_key, user_key, qos_key, assoc_key};

/// What a line speaks of.
#[derive(Clone, Copy)]
pub enum LineKind {
    Cluster,
    Qos,
    /// The account of the lines that follow.
    Parent,
    Account,
    User,
}

/// What a key of an account's or a user's line says.
#[derive(Clone, Copy)]
pub(crate) enum AssocKey {
    Fairshare,
    GrpJobs,
    GrpSubmitJobs,
    GrpTres,
    MaxJobs,
    MaxSubmitJobs,
    DefaultAccount,
    /// Any value is good, and none has an effect.
    WithoutEffect,
}

/// What a key of a quality of service says.
#[derive(Clone, Copy)]
pub(crate) enum QosKey {
    Priority,
    GrpJobs,
    GrpSubmitJobs,
    GrpTres,
    MaxJobsPerUser,
    MaxSubmitJobsPerUser,
    MaxTresPerUser,
    MaxWall,
    Preempt,
    /// Any value is good, and none has an effect.
    WithoutEffect,
}

/// What stands before the quote that begins a line's name.
pub(crate) const LINE_WORDS: [(&[u8], LineKind); 5] = [
    (b"Cluster - ", LineKind::Cluster),
    (b"QOS - ", LineKind::Qos),
    (b"Parent - ", LineKind::Parent),
    (b"Account - ", LineKind::Account),
    (b"User - ", LineKind::User),
];

/// The keys of an account's line.
pub(crate) const ACCOUNT_KEYS: [(&[u8], AssocKey); 10] = [
    (b"Fairshare", AssocKey::Fairshare),
    (b"GrpJobs", AssocKey::GrpJobs),
    (b"GrpSubmitJobs", AssocKey::GrpSubmitJobs),
    (b"GrpTRES", AssocKey::GrpTres),
    (b"MaxJobs", AssocKey::MaxJobs),
    (b"MaxSubmitJobs", AssocKey::MaxSubmitJobs),
    (b"Description", AssocKey::WithoutEffect),
    (b"Organization", AssocKey::WithoutEffect),
    (b"QOS", AssocKey::WithoutEffect),
    (b"DefaultQOS", AssocKey::WithoutEffect),
];

/// The keys of a user's line.
pub(crate) const USER_KEYS: [(&[u8], AssocKey); 13] = [
    (b"Fairshare", AssocKey::Fairshare),
    (b"GrpJobs", AssocKey::GrpJobs),
    (b"GrpSubmitJobs", AssocKey::GrpSubmitJobs),
    (b"GrpTRES", AssocKey::GrpTres),
    (b"MaxJobs", AssocKey::MaxJobs),
    (b"MaxSubmitJobs", AssocKey::MaxSubmitJobs),
    (b"DefaultAccount", AssocKey::DefaultAccount),
    (b"AdminLevel", AssocKey::WithoutEffect),
    (b"Coordinator", AssocKey::WithoutEffect),
    (b"QOS", AssocKey::WithoutEffect),
    (b"DefaultQOS", AssocKey::WithoutEffect),
    (b"WCKeys", AssocKey::WithoutEffect),
    (b"DefaultWCKey", AssocKey::WithoutEffect),
];

/// The keys of a quality of service.
pub(crate) const QOS_KEYS: [(&[u8], QosKey); 10] = [
    (b"Priority", QosKey::Priority),
    (b"GrpJobs", QosKey::GrpJobs),
    (b"GrpSubmitJobs", QosKey::GrpSubmitJobs),
    (b"GrpTRES", QosKey::GrpTres),
    (b"MaxJobsPerUser", QosKey::MaxJobsPerUser),
    (b"MaxSubmitJobsPerUser", QosKey::MaxSubmitJobsPerUser),
    (b"MaxTRESPerUser", QosKey::MaxTresPerUser),
    (b"MaxWall", QosKey::MaxWall),
    (b"Preempt", QosKey::Preempt),
    (b"Description", QosKey::WithoutEffect),
];

// What a text stands for in a table.
fn named<K: Copy>(table: &[(&[u8], K)], text: &[u8]) -> Option<K>
    ensures { result ≡ named (map (λ row. (row.0.now, row.1)) table.now) text.now }
{
    for (name, meaning) in table {
        if text == *name {
            return Some(*meaning);
        }
    }
    None
}

/// What a line speaks of, by what stands before its first quote.
#[tactic(auto, unfolding(crate::specs::Keys::line_kind))]
pub fn line_kind(text: &[u8]) -> Option<LineKind>
    ensures { result ≡ line_kind text.now }
{
    named(&LINE_WORDS, text)
}

#[tactic(auto, unfolding(crate::specs::Keys::account_key))]
fn account_key(text: &[u8]) -> Option<AssocKey>
    ensures { result ≡ account_key text.now }
{
    named(&ACCOUNT_KEYS, text)
}

#[tactic(auto, unfolding(crate::specs::Keys::user_key))]
fn user_key(text: &[u8]) -> Option<AssocKey>
    ensures { result ≡ user_key text.now }
{
    named(&USER_KEYS, text)
}

/// A key of a user's line or of an account's.
pub(crate) fn assoc_key(user: bool, text: &[u8]) -> Option<AssocKey>
    ensures { result ≡ assoc_key user text.now }
{
    if user {
        user_key(text)
    } else {
        account_key(text)
    }
}

/// A key of a quality of service.
#[tactic(auto, unfolding(crate::specs::Keys::qos_key))]
pub(crate) fn qos_key(text: &[u8]) -> Option<QosKey>
    ensures { result ≡ qos_key text.now }
{
    named(&QOS_KEYS, text)
}
