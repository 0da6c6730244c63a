//! Which accounts and users an association file has.

ghost use Rattle.std.specs.Prelude.{◌≡◌, ◌++◌, IfOk, OnOk, option_to_list};
ghost use Rattle.std.specs.Option.{option_copied};
ghost use Rattle.replay_texts.specs.Known.{account_at, account_in, accounts_in, has_account, has_user, is_user, name_at, same_account, user_in, users_in};

use plain_data::assoc::AssocConf;
use small_texts::memory_error::Memory;
use small_texts::name::Name;
use std::alloc::Global;

/// A user of an account.
#[derive(Debug, Drop)]
pub(crate) struct AccountUser {
    /// None is root.
    pub(crate) account: Option<Name>,
    pub(crate) user: Name,
}

fn account_in(assoc: &AssocConf) -> Result<Option<Name>, Memory>
    ensures { IfOk result (λ name. name ≡ account_in assoc.now) }
{
    if assoc.user {
        Ok(None)
    } else {
        Ok(Some(assoc.name.copy()?))
    }
}

fn push_some(names: &mut Vec<Name>, name: Option<Name>) -> Result<(), Memory>
    ensures { OnOk result (names.new.items ≡ names.old.items ++ option_to_list name) }
{
    match name {
        Some(name) => names.push(name)?,
        None => {}
    }
    Ok(())
}

/// The names of the accounts, in the order of the file.
pub(crate) fn accounts_in(alloc: Global, assocs: &[AssocConf]) -> Result<Vec<Name>, Memory>
    ensures { IfOk result (λ accounts. accounts.items ≡ accounts_in assocs.now) }
{
    let mut accounts = Vec::new(alloc);
    for assoc in assocs {
        let name = account_in(assoc)?;
        push_some(&mut accounts, name)?;
    }
    Ok(accounts)
}

fn name_at(assocs: &[AssocConf], place: u32) -> Result<Option<Name>, Memory>
    ensures { IfOk result (λ name. name ≡ name_at assocs.now place) }
{
    match assocs.get(place as usize) {
        Some(account) => Ok(Some(account.name.copy()?)),
        None => Ok(None),
    }
}

// The name of the account at a place; None is root.
fn account_at(assocs: &[AssocConf], place: Option<u32>) -> Result<Option<Name>, Memory>
    ensures { IfOk result (λ name. name ≡ account_at assocs.now place) }
{
    match place {
        Some(place) => name_at(assocs, place),
        None => Ok(None),
    }
}

fn user_in(assocs: &[AssocConf], assoc: &AssocConf) -> Result<Option<AccountUser>, Memory>
    ensures { IfOk result (λ user. user ≡ user_in assocs.now assoc.now) }
{
    if !assoc.user {
        return Ok(None);
    }
    let account = account_at(assocs, assoc.parent)?;
    let user = assoc.name.copy()?;
    Ok(Some(AccountUser { account, user }))
}

fn push_user(users: &mut Vec<AccountUser>, user: Option<AccountUser>) -> Result<(), Memory>
    ensures { OnOk result (users.new.items ≡ users.old.items ++ option_to_list user) }
{
    match user {
        Some(user) => users.push(user)?,
        None => {}
    }
    Ok(())
}

/// The users of accounts, in the order of the file.
pub(crate) fn users_in(alloc: Global, assocs: &[AssocConf]) -> Result<Vec<AccountUser>, Memory>
    ensures { IfOk result (λ users. users.items ≡ users_in assocs.now) }
{
    let mut users = Vec::new(alloc);
    for assoc in assocs {
        let user = user_in(assocs, assoc)?;
        push_user(&mut users, user)?;
    }
    Ok(users)
}

/// Whether an account is among these.
pub(crate) fn has_account(accounts: &[Name], name: &Name) -> bool
    ensures { result ≡ has_account accounts.now name.now }
{
    accounts.iter().any(|one| one.is(name))
}

fn same_account(one: &Option<Name>, other: Option<&Name>) -> bool
    ensures { result ≡ same_account one.now (option_copied other.entry) }
{
    match (one, other) {
        (Some(one), Some(other)) => one.is(other),
        (Some(_), None) => false,
        (None, Some(_)) => false,
        (None, None) => true,
    }
}

fn is_user(account: Option<&Name>, name: &Name, one: &AccountUser) -> bool
    ensures { result ≡ is_user (option_copied account.entry) name.now one.now }
{
    same_account(&one.account, account) && one.user.is(name)
}

/// Whether a user of an account is among these.
pub(crate) fn has_user(users: &[AccountUser], account: Option<&Name>, name: &Name) -> bool
    ensures { result ≡ has_user users.now (option_copied account.entry) name.now }
{
    users.iter().any(|one| is_user(account, name, one))
}
