//! The keys of scontrol(1).

ghost use Rattle.std.specs.Prelude.{◌≡◌};
ghost use Rattle.scontrol_words.specs.Keys.{scontrol_key};

use text_values::tables::key_named;

/// A key of a pair `KEY=VALUE`.
#[derive(Clone, Copy, PartialEq, Eq)]
pub(crate) enum Key {
    JobId,
    TimeLimit,
    Nice,
    NodeName,
    PartitionName,
    State,
    Reason,
    ReservationName,
    StartTime,
    EndTime,
    Duration,
    Nodes,
    Users,
    Accounts,
}

/// The keys, as the manual writes them. Their letters may be of either case.
pub(crate) const KEYS: [(&[u8], Key); 14] = [
    (b"JobId", Key::JobId),
    (b"TimeLimit", Key::TimeLimit),
    (b"Nice", Key::Nice),
    (b"NodeName", Key::NodeName),
    (b"PartitionName", Key::PartitionName),
    (b"State", Key::State),
    (b"Reason", Key::Reason),
    (b"ReservationName", Key::ReservationName),
    (b"StartTime", Key::StartTime),
    (b"EndTime", Key::EndTime),
    (b"Duration", Key::Duration),
    (b"Nodes", Key::Nodes),
    (b"Users", Key::Users),
    (b"Accounts", Key::Accounts),
];

/// The key that a text names.
#[tactic(auto, unfolding(crate::specs::Keys::scontrol_key))]
pub(crate) fn scontrol_key(text: &[u8]) -> Option<Key>
    ensures { result ≡ scontrol_key text.now }
{
    key_named(&KEYS, text)
}
