//! How accounts are written as lines.
//!
//! Defined in: `specs/Meaning/Running.antt`, `lg_accounts/specs/Meaning/Accounts.antt`, `Json.antt`.
//! Tested in: `cases/recordings`.
ghost use Rattle.std.specs.Prelude.{◌≡◌, IfOk};
ghost use Rattle.lg_explain_run.specs.Meaning.Running.{written_accounts};

use lg_accounts::{Account, NoMemory, put_accounts, put_accounts_json};
use lg_rules::Name;
use std::alloc::Global;

/// How accounts are written as lines.
#[derive(Clone, Copy, Debug, PartialEq, Eq)]
pub enum AccountForm {
    /// As lines.
    Lines,
    /// As lines, with the number of each entry behind its moment.
    NumberedLines,
    /// As JSON, in one line, with the number of each entry.
    Json,
}

/// The text of a member's accounts. The error is that memory was refused for it.
pub(crate) fn text_of(
    alloc: Global,
    name: &Name,
    accounts: &[Account],
    form: AccountForm,
) -> Result<Vec<u8>, NoMemory>
    ensures { IfOk result (λ text. text.items ≡ written_accounts form name.now accounts.now) }
{
    let mut text = Vec::new(alloc);
    match form {
        AccountForm::Lines => put_accounts(name, accounts, false, &mut text)?,
        AccountForm::NumberedLines => put_accounts(name, accounts, true, &mut text)?,
        AccountForm::Json => put_accounts_json(name, accounts, &mut text)?,
    }
    Ok(text)
}
