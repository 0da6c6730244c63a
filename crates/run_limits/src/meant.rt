//! Which association, and which quality of service, is meant by names.

ghost use Rattle.std.specs.Prelude.{◌≡◌, ◌<◌, length, filter_map, slice_get, position, bytes_eq, option_copied, IfSome};
ghost use Rattle.run_limits.specs.declared.record.QosRecord.{QosRecord as QualityOfService};
ghost use Rattle.run_limits.specs.Accounts as spec;
ghost use Rattle.run_limits.specs.Spans.{IsSpan};

use crate::record::{AssocRecord, QosRecord};
use crate::spans::Span;
use small_texts::name::Name;

// The name of the account that users directly below root belong to.
const ROOT: &str = "root";

// The quality of service of who names none.
const NORMAL: &str = "normal";

/// The name of the account that an association belongs to.
pub fn account_of<'a>(records: &'a [AssocRecord], assoc: &AssocRecord) -> &'a [u8]
    ensures { result.now ≡ spec.account_of records.now assoc.now }
{
    match assoc.conf.parent {
        None => ROOT.as_bytes(),
        Some(parent) => match records.get(parent as usize) {
            None => ROOT.as_bytes(),
            Some(account) => account.conf.name.as_bytes(),
        },
    }
}

fn is_of_user(user: &Name, assoc: &AssocRecord) -> bool
    ensures { result ≡ spec.is_of_user user.now assoc.now }
{
    assoc.conf.user && assoc.conf.name.is(user)
}

fn is_users_in(records: &[AssocRecord], user: &Name, account: &Name, assoc: &AssocRecord) -> bool
    ensures { result ≡ spec.is_users_in records.now user.now account.now assoc.now }
{
    is_of_user(user, assoc) && account_of(records, assoc) == account.as_bytes()
}

// Which of these is the user's association of this account.
fn index_in(
    records: &[AssocRecord],
    own: &[AssocRecord],
    user: &Name,
    account: &Name,
) -> Option<usize>
    ensures value { result ≡ position (spec.is_users_in records.now user.now account.now) own.now }
    ensures there { IfSome result (λ index. index < length own.now) }
{
    own.iter()
        .position(|assoc| is_users_in(records, user, account, assoc))
}

// The place of the user's association of this account.
fn place_in(records: &[AssocRecord], span: Span, user: &Name, account: &Name) -> Option<usize>
    requires { IsSpan records.now user.now span }
    ensures value { result ≡ spec.place_in records.now user.now account.now }
    ensures there { IfSome result (λ place. place < length records.now) }
{
    let own = span.of(records);
    let Some(index) = index_in(records, own, user, account) else {
        return None;
    };
    Some(span.first as usize + index)
}

// Which of these is the user's first association.
fn index_of_user(own: &[AssocRecord], user: &Name) -> Option<usize>
    ensures value { result ≡ position (spec.is_of_user user.now) own.now }
    ensures there { IfSome result (λ index. index < length own.now) }
{
    own.iter().position(|assoc| is_of_user(user, assoc))
}

// The place of the user's first association.
fn first_of_user(records: &[AssocRecord], span: Span, user: &Name) -> Option<usize>
    requires { IsSpan records.now user.now span }
    ensures value { result ≡ position (spec.is_of_user user.now) records.now }
    ensures there { IfSome result (λ place. place < length records.now) }
{
    let own = span.of(records);
    let Some(index) = index_of_user(own, user) else {
        return None;
    };
    Some(span.first as usize + index)
}

// The place of the default account that an association of the user names.
fn default_by(
    records: &[AssocRecord],
    span: Span,
    user: &Name,
    assoc: &AssocRecord,
) -> Option<usize>
    requires { IsSpan records.now user.now span }
    ensures value { result ≡ spec.default_by records.now user.now assoc.now }
    ensures there { IfSome result (λ place. place < length records.now) }
{
    match &assoc.conf.default_account {
        Some(account) if is_of_user(user, assoc) => place_in(records, span, user, account),
        _ => None,
    }
}

// The place of the first default account that these associations of the user name.
fn first_default_by(
    records: &[AssocRecord],
    span: Span,
    own: &[AssocRecord],
    user: &Name,
) -> Option<usize>
    requires { IsSpan records.now user.now span }
    ensures value { result ≡ slice_get (filter_map (spec.default_by records.now user.now) own.now) 0 }
    ensures there { IfSome result (λ place. place < length records.now) }
{
    for assoc in own {
        if let Some(place) = default_by(records, span, user, assoc) {
            return Some(place);
        }
    }
    None
}

// The place of the first default account that associations of the user name.
fn first_default(records: &[AssocRecord], span: Span, user: &Name) -> Option<usize>
    requires { IsSpan records.now user.now span }
    ensures value { result ≡ slice_get (filter_map (spec.default_by records.now user.now) records.now) 0 }
    ensures there { IfSome result (λ place. place < length records.now) }
{
    first_default_by(records, span, span.of(records), user)
}

/// The place of the association that a user means who names this account, or none; those of his name stand in the span.
#[tactic(auto, unfolding(crate::specs::Accounts::place_meant))]
pub fn place_meant(
    records: &[AssocRecord],
    span: Span,
    user: &Name,
    account: Option<&Name>,
) -> Option<usize>
    requires { IsSpan records.now user.now span }
    ensures value { result ≡ spec.place_meant records.now user.now (option_copied account.entry) }
    ensures there { IfSome result (λ place. place < length records.now) }
{
    match account {
        Some(account) => place_in(records, span, user, account),
        None => match first_default(records, span, user) {
            Some(place) => Some(place),
            None => first_of_user(records, span, user),
        },
    }
}

// The place of the quality of service with this name.
fn qos_named(qos: &[QosRecord], name: &[u8]) -> Option<usize>
    ensures value { result ≡ position (λ (one : QualityOfService). bytes_eq one.conf.name name.now) qos.now }
    ensures there { IfSome result (λ place. place < length qos.now) }
{
    qos.iter().position(|one| one.conf.name.as_bytes() == name)
}

/// The place of the quality of service that is meant by this name, or by none.
pub fn qos_meant(qos: &[QosRecord], name: Option<&Name>) -> Option<usize>
    ensures value { result ≡ spec.qos_meant qos.now (option_copied name.entry) }
    ensures there { IfSome result (λ place. place < length qos.now) }
{
    match name {
        Some(name) => qos_named(qos, name.as_bytes()),
        None => qos_named(qos, NORMAL.as_bytes()),
    }
}
