//! What is added to an association file.

ghost use Rattle.std.specs.Prelude.{◌≡◌, ◌++◌, IfOk, OnOk, Some};
ghost use Rattle.std.specs.List.{ends_with};
ghost use Rattle.std.specs.Option.{option_copied};
ghost use Rattle.replay_texts.specs.Adding.{account_lines, accounts_behind, accounts_with, added, added_lines, ended, job_lines, lines_with, named_account, named_lines, named_with, user_lines, users_behind, users_with, with_users};

use crate::known::{AccountUser, accounts_in, has_account, has_user, users_in};
use crate::lines::{push_account, push_user};
use assoc_reader::read_assocs;
use assoc_reader::refusal::AssocRefusal;
use plain_data::Plain;
use plain_data::assoc::AssocFile;
use small_texts::memory_error::Memory;
use small_texts::name::Name;
use small_texts::pieces::push_text;
use std::alloc::Global;
use trace_text::TraceJob;

// The account that a trace tells; None is root.
fn named_account(account: &Option<Name>) -> Option<&Name>
    ensures { option_copied result ≡ named_account account.now }
{
    match account {
        Some(name) => {
            if name.as_bytes() == b"root".as_slice() {
                None
            } else {
                Some(name)
            }
        }
        None => None,
    }
}

// Adds an account that isn't among these.
fn add_named(out: &mut Vec<u8>, accounts: &mut Vec<Name>, name: &Name) -> Result<(), Memory>
    ensures lines { OnOk result (out.new.items ≡ out.old.items ++ named_lines accounts.old.items name.now) }
    ensures known { OnOk result (accounts.new.items ≡ named_with accounts.old.items name.now) }
{
    if has_account(accounts.as_slice(), name) {
        return Ok(());
    }
    push_account(out, name)?;
    let name = name.copy()?;
    accounts.push(name)?;
    Ok(())
}

// The same, but of root.
fn add_account(
    out: &mut Vec<u8>,
    accounts: &mut Vec<Name>,
    account: Option<&Name>,
) -> Result<(), Memory>
    ensures lines { OnOk result (out.new.items
        ≡ out.old.items ++ account_lines accounts.old.items (option_copied account.entry)) }
    ensures known { OnOk result (accounts.new.items ≡ accounts_with accounts.old.items (option_copied account.entry)) }
{
    match account {
        Some(name) => add_named(out, accounts, name),
        None => Ok(()),
    }
}

fn copy_name(name: Option<&Name>) -> Result<Option<Name>, Memory>
    ensures { IfOk result (λ copy. copy ≡ option_copied name.entry) }
{
    match name {
        Some(name) => Ok(Some(name.copy()?)),
        None => Ok(None),
    }
}

// Adds a user of an account that isn't among these.
fn add_user(
    out: &mut Vec<u8>,
    users: &mut Vec<AccountUser>,
    account: Option<&Name>,
    user: &Name,
) -> Result<(), Memory>
    ensures lines { OnOk result (out.new.items
        ≡ out.old.items ++ user_lines users.old.items (option_copied account.entry) user.now) }
    ensures known { OnOk result (users.new.items ≡ users_with users.old.items (option_copied account.entry) user.now) }
{
    if has_user(users.as_slice(), account, user) {
        return Ok(());
    }
    push_user(out, account, user)?;
    let account = copy_name(account)?;
    let user = user.copy()?;
    users.push(AccountUser { account, user })?;
    Ok(())
}

// Adds an account and a user of it.
fn add_both(
    out: &mut Vec<u8>,
    accounts: &mut Vec<Name>,
    users: &mut Vec<AccountUser>,
    account: Option<&Name>,
    user: &Name,
) -> Result<(), Memory>
    ensures lines { OnOk result (out.new.items ≡ out.old.items
        ++ lines_with accounts.old.items users.old.items (option_copied account.entry) (Some user.now)) }
    ensures accounts { OnOk result (accounts.new.items ≡ accounts_with accounts.old.items (option_copied account.entry)) }
    ensures users { OnOk result (users.new.items ≡ users_with users.old.items (option_copied account.entry) user.now) }
{
    add_account(out, accounts, account)?;
    add_user(out, users, account, user)
}

// Adds the account and the user of a job.
#[tactic(auto, unfolding(crate::specs::Adding::job_lines, crate::specs::Adding::accounts_behind, crate::specs::Adding::users_behind))]
fn add_job(
    out: &mut Vec<u8>,
    accounts: &mut Vec<Name>,
    users: &mut Vec<AccountUser>,
    job: &TraceJob,
) -> Result<(), Memory>
    ensures lines { OnOk result (out.new.items ≡ out.old.items ++ job_lines accounts.old.items users.old.items job.now) }
    ensures accounts { OnOk result (accounts.new.items ≡ accounts_behind accounts.old.items job.now) }
    ensures users { OnOk result (users.new.items ≡ users_behind users.old.items job.now) }
{
    let account = named_account(&job.names.account);
    match &job.names.user {
        Some(user) => add_both(out, accounts, users, account, user),
        None => Ok(()),
    }
}

fn add_jobs(
    out: &mut Vec<u8>,
    accounts: &mut Vec<Name>,
    users: &mut Vec<AccountUser>,
    jobs: &[TraceJob],
) -> Result<(), Memory>
    ensures { OnOk result (out.new.items ≡ out.old.items ++ added accounts.old.items users.old.items jobs.now) }
{
    for job in jobs {
        add_job(out, accounts, users, job)?;
    }
    Ok(())
}

// Writes the end of the last line, where it has none.
fn end_line(out: &mut Vec<u8>, text: &[u8]) -> Result<(), Memory>
    ensures { OnOk result (out.new.items ≡ out.old.items ++ ended text.now) }
{
    if text.ends_with(b"\n") {
        Ok(())
    } else {
        push_text(out, b"\n")
    }
}

// Adds what jobs need to the text of a file that says this.
fn added_to(
    alloc: Global,
    text: &[u8],
    file: &AssocFile,
    jobs: &[TraceJob],
) -> Result<Vec<u8>, Memory>
    ensures { IfOk result (λ whole. whole.items ≡ text.now ++ ended text.now ++ added_lines file.now jobs.now) }
{
    let assocs = file.assocs.as_slice();
    let mut accounts = accounts_in(alloc, assocs)?;
    let mut users = users_in(alloc, assocs)?;
    let mut whole = Vec::from_slice(alloc, text)?;
    end_line(&mut whole, text)?;
    add_jobs(&mut whole, &mut accounts, &mut users, jobs)?;
    Ok(whole)
}

/// The text of an association file, sacctmgr(1), with lines at its end for the accounts and users of a trace that it lacks: an
/// account below root, and a user below the account of the job, or below root where the trace tells none, each once, in the
/// order in which the jobs name them. A bad file stays as it is. It goes over the accounts and users that are known for each
/// job.
#[tactic(auto, unfolding(crate::specs::Adding::with_users))]
pub fn with_users(alloc: Global, text: &[u8], jobs: &[TraceJob]) -> Result<Vec<u8>, Memory>
    ensures { IfOk result (λ whole. whole.items ≡ with_users text.now jobs.now) }
{
    match read_assocs(alloc, text) {
        Ok(file) => added_to(alloc, text, &file, jobs),
        Err(AssocRefusal::At { .. }) => Ok(Vec::from_slice(alloc, text)?),
        Err(AssocRefusal::Memory) => Err(Memory),
    }
}
