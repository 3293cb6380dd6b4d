//! Writes the accounts of a member as a page of HTML. Nothing in them needs an escape.
//!
//! Each function here that takes a `String` appends to it. If memory is refused, that is its only error, and the text
//! may have grown by a part of what was to be appended.
//!
//! Defined in: `specs/Meaning/Pages.antt`.
//! Tested in: `lg_explain_tests/src/pages.rt`.
ghost use Rattle.std.specs.Prelude.{◌≡◌, ◌++◌, OnErr, OnOk, map, string_bytes};
ghost use Rattle.std.specs.List.{flat_map};
ghost use Rattle.lg_accounts.specs.Meaning.Pages.{account_section, accounts_page, item_front, missing_paragraph};
ghost use Rattle.lg_accounts.specs.Meaning.Pages.{none_paragraph, note_item, page_sections, page_opening, page_heading};
ghost use Rattle.lg_accounts.specs.Meaning.Pages.{page_of_accounts, page_title};
ghost use Rattle.lg_accounts.specs.Meaning.Values.{account_value, note_value};

use crate::account::{Account, Note};
use crate::accounts::put_heading;
use crate::names::name_text;
use crate::page_style::{page_beginning, page_style};
use crate::picture::put_picture;
use crate::sentences::put_sentences;
use lg_detector::NoMemory;
use lg_rules::Name;

/// Appends what stands before the sentences of an entry.
#[tactic(auto, unfolding(crate::specs::Meaning::Pages::item_front))]
fn put_item_front(moment: u64, text: &mut String) -> Result<(), NoMemory>
    ensures { OnOk result (string_bytes text.new ≡ string_bytes text.old ++ item_front moment) }
{
    write!(text, "<li><b>{moment}</b> ")
}

/// Appends an entry as an item of a list.
#[tactic(auto, unfolding(crate::specs::Meaning::Pages::note_item))]
fn put_item(note: &Note, text: &mut String) -> Result<(), NoMemory>
    ensures { OnOk result (string_bytes text.new ≡ string_bytes text.old ++ note_item (note_value note.now)) }
{
    put_item_front(note.moment.milliseconds(), text)?;
    put_sentences(&note.teller, &note.steps, text)?;
    text.push_str("</li>\n")
}

/// Appends entries as items of a list.
fn put_items(notes: &[Note], text: &mut String) -> Result<(), NoMemory>
    ensures { OnOk result (string_bytes text.new
        ≡ string_bytes text.old ++ flat_map note_item (map note_value notes.now)) }
{
    for note in notes {
        put_item(note, text)?;
    }
    Ok(())
}

/// The last paragraph of an account.
fn missing_paragraph(is_known: bool) -> &'static str
    ensures { result.now ≡ missing_paragraph is_known }
{
    if is_known {
        ""
    } else {
        "<p>Some of the past is missing, so scores and timeouts may not be told.</p>\n"
    }
}

/// Appends an account.
#[tactic(auto, unfolding(crate::specs::Meaning::Pages::account_section))]
fn put_section(name: &str, account: &Account, text: &mut String) -> Result<(), NoMemory>
    ensures { OnOk result (string_bytes text.new
        ≡ string_bytes text.old ++ account_section name.now (account_value account.now)) }
{
    text.push_str("<h2>")?;
    put_heading(name, &account.verdict(), text)?;
    text.push_str("</h2>\n")?;
    put_picture(&account.notes, text)?;
    text.push_str("<ol>\n")?;
    put_items(&account.notes, text)?;
    text.push_str("</ol>\n")?;
    text.push_str(missing_paragraph(account.is_known))
}

/// Appends accounts, one behind another.
fn put_other_sections(name: &str, others: &[Account], text: &mut String) -> Result<(), NoMemory>
    ensures { OnOk result (string_bytes text.new
        ≡ string_bytes text.old ++ flat_map (account_section name.now) (map account_value others.now)) }
{
    for account in others {
        put_section(name, account, text)?;
    }
    Ok(())
}

/// Appends that there are no accounts.
#[tactic(auto, unfolding(crate::specs::Meaning::Pages::none_paragraph))]
fn put_none(name: &str, text: &mut String) -> Result<(), NoMemory>
    ensures { OnOk result (string_bytes text.new ≡ string_bytes text.old ++ none_paragraph name.now) }
{
    write!(
        text,
        "<p>{name} has not been suspected, and has neither failed nor left.</p>\n"
    )
}

/// Appends all accounts, or that there are none.
fn put_sections(name: &str, accounts: &[Account], text: &mut String) -> Result<(), NoMemory>
    ensures { OnOk result (string_bytes text.new
        ≡ string_bytes text.old ++ page_sections name.now (map account_value accounts.now)) }
{
    match accounts {
        [] => put_none(name, text),
        [account, others @ ..] => {
            put_section(name, account, text)?;
            put_other_sections(name, others, text)
        }
    }
}

/// Appends the name as the title.
#[tactic(auto, unfolding(crate::specs::Meaning::Pages::page_title))]
fn put_title(name: &str, text: &mut String) -> Result<(), NoMemory>
    ensures { OnOk result (string_bytes text.new ≡ string_bytes text.old ++ page_title name.now) }
{
    write!(text, "{name}</title>\n<style>\n")
}

/// Appends the name as the first heading.
#[tactic(auto, unfolding(crate::specs::Meaning::Pages::page_heading))]
fn put_page_heading(name: &str, text: &mut String) -> Result<(), NoMemory>
    ensures { OnOk result (string_bytes text.new ≡ string_bytes text.old ++ page_heading name.now) }
{
    write!(text, "</style>\n</head>\n<body>\n<h1>{name}</h1>\n")
}

/// Appends what stands before the accounts.
fn put_opening(name: &str, text: &mut String) -> Result<(), NoMemory>
    ensures { OnOk result (string_bytes text.new ≡ string_bytes text.old ++ page_opening name.now) }
{
    text.push_str(page_beginning())?;
    put_title(name, text)?;
    text.push_str(page_style())?;
    put_page_heading(name, text)
}

/// Appends the page of a member.
#[tactic(auto, unfolding(crate::specs::Meaning::Pages::page_of_accounts))]
fn put_page(name: &str, accounts: &[Account], text: &mut String) -> Result<(), NoMemory>
    ensures { OnOk result (string_bytes text.new
        ≡ string_bytes text.old ++ page_of_accounts name.now (map account_value accounts.now)) }
{
    put_opening(name, text)?;
    put_sections(name, accounts, text)?;
    text.push_str("</body>\n</html>\n")
}

/// Appends the accounts of a member to a text as a page of HTML, in the order given: of each its heading, a picture of
/// its steps in time, and its entries as a list. The page needs no other file.
///
/// Moments are in milliseconds, and dates in UTC. Memory is allocated for what is appended, once to write it and once
/// if the text has to grow. The only error is that memory was refused; the text is then unchanged.
#[tactic(auto, unfolding(crate::specs::Meaning::Pages::accounts_page))]
pub fn put_accounts_page(
    member: &Name,
    accounts: &[Account],
    text: &mut Vec<u8>,
) -> Result<(), NoMemory>
    ensures put { OnOk result (text.new.items ≡ text.old.items ++ accounts_page member.now accounts.now) }
    ensures refused { OnErr result (text.new.items ≡ text.old.items) }
{
    let mut written = String::new(*text.allocator());
    put_page(name_text(member), accounts, &mut written)?;
    text.extend_from_slice(written.as_bytes())
}
