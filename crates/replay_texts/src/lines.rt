//! Lines of an association file.

ghost use Rattle.std.specs.Prelude.{◌≡◌, ◌++◌, OnOk};
ghost use Rattle.std.specs.Option.{option_copied};
ghost use Rattle.replay_texts.specs.Lines.{account_name, account_text, user_text};

use small_texts::memory_error::Memory;
use small_texts::name::Name;
use small_texts::pieces::push_text;

/// Writes the lines of an account below root.
pub(crate) fn push_account(out: &mut Vec<u8>, name: &Name) -> Result<(), Memory>
    ensures { OnOk result (out.new.items ≡ out.old.items ++ account_text name.now) }
{
    push_text(out, b"Parent - 'root'\nAccount - '")?;
    push_text(out, name.as_bytes())?;
    push_text(out, b"'\n")
}

fn account_name<'a>(account: Option<&'a Name>) -> &'a [u8]
    ensures { result.now ≡ account_name (option_copied account.entry) }
{
    match account {
        Some(name) => name.as_bytes(),
        None => b"root",
    }
}

/// Writes the lines of a user of an account.
pub(crate) fn push_user(
    out: &mut Vec<u8>,
    account: Option<&Name>,
    user: &Name,
) -> Result<(), Memory>
    ensures { OnOk result (out.new.items ≡ out.old.items ++ user_text (option_copied account.entry) user.now) }
{
    push_text(out, b"Parent - '")?;
    push_text(out, account_name(account))?;
    push_text(out, b"'\nUser - '")?;
    push_text(out, user.as_bytes())?;
    push_text(out, b"'\n")
}
