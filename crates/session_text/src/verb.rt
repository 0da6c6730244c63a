//! The words of a session that are no commands of the controller.

ghost use Rattle.std.specs.Prelude.{◌≡◌};
ghost use Rattle.session_text.specs.Said.{verb_named};

/// A word of a session that is no command of the controller (own).
#[derive(Clone, Copy, Debug, PartialEq, Eq)]
pub(crate) enum Verb {
    /// Sets the user.
    User,
    /// Sets the moment.
    At,
    /// Asks again and again.
    Every,
    Help,
    Quit,
}

/// The verb of this name.
#[tactic(auto, unfolding(crate::specs::Said::verb_named))]
pub(crate) fn verb_named(word: &[u8]) -> Option<Verb>
    ensures { result ≡ verb_named word.now }
{
    if word == b"user".as_slice() {
        Some(Verb::User)
    } else if word == b"at".as_slice() {
        Some(Verb::At)
    } else if word == b"every".as_slice() {
        Some(Verb::Every)
    } else if word == b"help".as_slice() {
        Some(Verb::Help)
    } else if word == b"quit".as_slice() {
        Some(Verb::Quit)
    } else {
        None
    }
}
