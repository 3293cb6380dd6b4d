//! Writes the page that a person reads.
//!
//! It is one text of HTML, with a table of the members that the look found. The script in it follows the changes, and
//! fetches nothing but the answers of this node. Without a script the table stays as it is.
//!
//! Defined in: `specs/Meaning/Page.antt`.
//! Tested in: `lg_answers_tests/src/answer.rt`, `lg_answers_tests/src/page.rt`.
ghost use Rattle.std.specs.Prelude.{◌≡◌, ◌++◌, IfOk, OnOk, string_bytes};
ghost use Rattle.std.specs.List.{flat_map};
ghost use Rattle.lg_answers.specs.Meaning.Page.{body_tag, live_words, member_row, name_cells, name_heading};
ghost use Rattle.lg_answers.specs.Meaning.Page.{ousted_words, page_body, page_end, page_front, page_head, row_accuser};
ghost use Rattle.lg_answers.specs.Meaning.Page.{row_address, row_front, score_words, status_cells, summary_text};
ghost use Rattle.lg_answers.specs.Meaning.Page.{table_front, table_head};

use crate::health::live_among;
use crate::members::status_word;
use crate::snapshot::Snapshot;
use lg_check::text_of_name;
use lg_rules::{Addr, Record, Status};
use lg_text::put_addr;
use std::alloc::{AllocError, Global};

/// What stands before the member's name.
const PAGE_FRONT: &str = "\
    <!DOCTYPE html>\n\
    <html lang='en'>\n\
    <head>\n\
    <meta charset='utf-8'>\n\
    <meta name='viewport' content='width=device-width, initial-scale=1'>\n\
    <title>Lifeguard agent</title>\n\
    <style>\n\
    body { font: 16px sans-serif; margin: 1em auto; max-width: 48em; padding: 0 1em }\n\
    table { border-collapse: collapse; width: 100% }\n\
    th, td { border-bottom: 1px solid #ccc; overflow-wrap: anywhere; padding: .3em; text-align: left }\n\
    .suspect { color: #850 }\n\
    .failed { color: #b00 }\n\
    .left { color: #666 }\n\
    </style>\n\
    </head>\n\
    <body>\n";

/// What stands before the tag of the table's body.
const TABLE_FRONT: &str = "\
    <table>\n\
    <thead><tr><th>member<th>status<th>incarnation<th>address<th>accuser</thead>\n";

/// What stands behind the rows of the members. Its script reads all members anew if an answer failed, or if the node
/// began anew, and says so if there is no answer.
const PAGE_END: &str = "\
    </tbody>\n\
    </table>\n\
    <h2>Changes</h2>\n\
    <noscript><p>Load this page again to see changes.</p></noscript>\n\
    <ol id='changes' reversed></ol>\n\
    <script>\n\
    const members = document.getElementById('members')\n\
    const changes = document.getElementById('changes')\n\
    const health = document.getElementById('health')\n\
    let version = Number(members.dataset.version)\n\
    let lost = false\n\
    const host = (m) => m.address.includes(':') ? '[' + m.address + ']' : m.address\n\
    const place = (m) => host(m) + ':' + m.port\n\
    function cells(m) {\n\
    \x20 return [m.name, m.status, m.incarnation, place(m), m.accuser ?? '']\n\
    }\n\
    function show(m) {\n\
    \x20 const rows = [...members.rows]\n\
    \x20 let row = rows.find((r) => r.cells[0].textContent === m.name)\n\
    \x20 if (m.status === 'forgotten') return row?.remove()\n\
    \x20 if (!row) {\n\
    \x20   const at = rows.findIndex((r) => r.cells[0].textContent > m.name)\n\
    \x20   row = members.insertRow(at)\n\
    \x20   for (let n = 0; n < 5; n++) row.insertCell()\n\
    \x20 }\n\
    \x20 row.className = m.status\n\
    \x20 cells(m).forEach((cell, n) => { row.cells[n].textContent = cell })\n\
    }\n\
    function tell(m) {\n\
    \x20 const item = document.createElement('li')\n\
    \x20 const accuser = m.accuser ? ' by ' + m.accuser : ''\n\
    \x20 item.textContent = m.moment_ms + ' ms: ' + m.name + ' ' + m.status + accuser\n\
    \x20 changes.prepend(item)\n\
    \x20 while (changes.children.length > 100) changes.lastChild.remove()\n\
    }\n\
    async function ask(path, wait = 0) {\n\
    \x20 const signal = AbortSignal.timeout(wait + 5000)\n\
    \x20 const answer = await fetch(path, { cache: 'no-store', signal })\n\
    \x20 const body = await answer.json()\n\
    \x20 if (body.error) throw new Error(body.error)\n\
    \x20 return body\n\
    }\n\
    function showHealth(h) {\n\
    \x20 const ousted = h.ousted ? ', ousted' : ''\n\
    \x20 health.textContent = 'score ' + h.score + ', incarnation ' + h.incarnation +\n\
    \x20   ', ' + h.live + ' of ' + h.known + ' members live' + ousted\n\
    }\n\
    async function readAll() {\n\
    \x20 const all = await ask('/v1/members')\n\
    \x20 members.replaceChildren()\n\
    \x20 all.members.forEach(show)\n\
    \x20 version = all.version\n\
    }\n\
    async function follow() {\n\
    \x20 if (lost) await readAll()\n\
    \x20 lost = false\n\
    \x20 showHealth(await ask('/v1/health'))\n\
    \x20 const news = await ask('/v1/changes?after=' + version + '&wait_ms=20000', 20000)\n\
    \x20 lost = news.version < version\n\
    \x20 if (news.missed) members.replaceChildren()\n\
    \x20 news.changes.forEach(show)\n\
    \x20 if (!news.missed) news.changes.forEach(tell)\n\
    \x20 version = news.version\n\
    }\n\
    async function run() {\n\
    \x20 for (;;) {\n\
    \x20   try {\n\
    \x20     await follow()\n\
    \x20   } catch (fault) {\n\
    \x20     if (lost) health.textContent = 'no answer'\n\
    \x20     lost = true\n\
    \x20     await new Promise((go) => setTimeout(go, 1000))\n\
    \x20   }\n\
    \x20 }\n\
    }\n\
    run()\n\
    </script>\n\
    </body>\n\
    </html>\n";

/// The front of the page.
#[tactic(auto, unfolding(crate::specs::Meaning::Page::page_front))]
fn page_front() -> &'static str
    ensures { result.now ≡ page_front }
{
    PAGE_FRONT
}

/// The end of the page.
#[tactic(auto, unfolding(crate::specs::Meaning::Page::page_end))]
fn page_end() -> &'static str
    ensures { result.now ≡ page_end }
{
    PAGE_END
}

/// Appends the name.
#[tactic(auto, unfolding(crate::specs::Meaning::Page::name_heading))]
fn put_heading(name: &str, text: &mut String) -> Result<(), AllocError>
    ensures { OnOk result (string_bytes text.new ≡ string_bytes text.old ++ name_heading name.now) }
{
    write!(text, "<h1>{name}</h1>\n<p id='health'>")
}

/// Appends the score and the incarnation.
#[tactic(auto, unfolding(crate::specs::Meaning::Page::score_words))]
fn put_score(score: u64, incarnation: u32, text: &mut String) -> Result<(), AllocError>
    ensures { OnOk result (string_bytes text.new ≡ string_bytes text.old ++ score_words score incarnation) }
{
    write!(text, "score {score}, incarnation {incarnation}, ")
}

/// Appends the name, the score and the incarnation.
#[tactic(auto, unfolding(crate::specs::Meaning::Page::page_head))]
fn put_head(snapshot: &Snapshot, text: &mut String) -> Result<(), AllocError>
    ensures { OnOk result (string_bytes text.new ≡ string_bytes text.old ++ page_head snapshot.now) }
{
    put_heading(text_of_name(&snapshot.name), text)?;
    put_score(snapshot.score, snapshot.incarnation.number(), text)
}

/// The words for a member that is ousted.
fn ousted_words(ousted: bool) -> &'static str
    ensures { result.now ≡ ousted_words ousted }
{
    if ousted { ", ousted" } else { "" }
}

/// Appends how many members are live, and a word behind that.
#[tactic(auto, unfolding(crate::specs::Meaning::Page::live_words))]
fn put_live(live: usize, known: usize, ousted: &str, text: &mut String) -> Result<(), AllocError>
    ensures { OnOk result (string_bytes text.new ≡ string_bytes text.old ++ live_words live known ousted.now) }
{
    write!(text, "{live} of {known} members live{ousted}</p>\n")
}

/// Appends how many members are live, and whether this member is ousted.
#[tactic(auto, unfolding(crate::specs::Meaning::Page::summary_text))]
fn put_summary(members: &[Record], ousted: bool, text: &mut String) -> Result<(), AllocError>
    ensures { OnOk result (string_bytes text.new ≡ string_bytes text.old ++ summary_text members.now ousted) }
{
    put_live(
        live_among(members),
        members.len(),
        ousted_words(ousted),
        text,
    )
}

/// The front of the table.
#[tactic(auto, unfolding(crate::specs::Meaning::Page::table_front))]
fn table_front() -> &'static str
    ensures { result.now ≡ table_front }
{
    TABLE_FRONT
}

/// Appends the tag of the table's body.
#[tactic(auto, unfolding(crate::specs::Meaning::Page::body_tag))]
fn put_body_tag(version: u64, text: &mut String) -> Result<(), AllocError>
    ensures { OnOk result (string_bytes text.new ≡ string_bytes text.old ++ body_tag version) }
{
    write!(text, "<tbody id='members' data-version='{version}'>\n")
}

/// Appends the head of the table.
#[tactic(auto, unfolding(crate::specs::Meaning::Page::table_head))]
fn put_table_head(version: u64, text: &mut String) -> Result<(), AllocError>
    ensures { OnOk result (string_bytes text.new ≡ string_bytes text.old ++ table_head version) }
{
    text.push_str(table_front())?;
    put_body_tag(version, text)
}

/// Appends the first cell of a row, and what stands before it.
#[tactic(auto, unfolding(crate::specs::Meaning::Page::name_cells))]
fn put_name_cells(status: &str, name: &str, text: &mut String) -> Result<(), AllocError>
    ensures { OnOk result (string_bytes text.new ≡ string_bytes text.old ++ name_cells status.now name.now) }
{
    write!(text, "<tr class='{status}'><td>{name}<td>")
}

/// Appends the status and the incarnation of a row.
#[tactic(auto, unfolding(crate::specs::Meaning::Page::status_cells))]
fn put_status_cells(status: &str, incarnation: u32, text: &mut String) -> Result<(), AllocError>
    ensures { OnOk result (string_bytes text.new ≡ string_bytes text.old ++ status_cells status.now incarnation) }
{
    write!(text, "{status}<td>{incarnation}<td>")
}

/// Appends the name, the status and the incarnation of a row.
#[tactic(auto, unfolding(crate::specs::Meaning::Page::row_front))]
fn put_row_front(member: &Record, text: &mut String) -> Result<(), AllocError>
    ensures { OnOk result (string_bytes text.new ≡ string_bytes text.old ++ row_front member.now) }
{
    let status = status_word(&member.status);
    put_name_cells(status, text_of_name(&member.name), text)?;
    put_status_cells(status, member.incarnation.number(), text)
}

/// Appends the address of a row.
fn put_row_address(addr: &Addr, text: &mut String) -> Result<(), AllocError>
    ensures { OnOk result (string_bytes text.new ≡ string_bytes text.old ++ row_address addr.now) }
{
    put_addr(addr, text)?;
    text.push_str("<td>")
}

/// Appends the accuser of a row, if the member is suspected.
fn put_row_accuser(status: &Status, text: &mut String) -> Result<(), AllocError>
    ensures { OnOk result (string_bytes text.new ≡ string_bytes text.old ++ row_accuser status.now) }
{
    match status {
        Status::Suspect(accuser) => text.push_str(text_of_name(accuser)),
        Status::Alive | Status::Failed | Status::Left => Ok(()),
    }
}

/// Appends the row of a member.
#[tactic(auto, unfolding(crate::specs::Meaning::Page::member_row))]
fn put_row(member: &Record, text: &mut String) -> Result<(), AllocError>
    ensures { OnOk result (string_bytes text.new ≡ string_bytes text.old ++ member_row member.now) }
{
    put_row_front(member, text)?;
    put_row_address(&member.addr, text)?;
    put_row_accuser(&member.status, text)?;
    text.push_str("</tr>\n")
}

/// Appends the rows of some members.
fn put_rows(members: &[Record], text: &mut String) -> Result<(), AllocError>
    ensures { OnOk result (string_bytes text.new ≡ string_bytes text.old ++ flat_map member_row members.now) }
{
    for member in members {
        put_row(member, text)?;
    }
    Ok(())
}

/// The body of the page. Memory is allocated for the text, of some 3,200 bytes and 174 at most for each member.
#[tactic(auto, unfolding(crate::specs::Meaning::Page::page_body))]
pub(crate) fn page_body(alloc: Global, snapshot: &Snapshot) -> Result<String, AllocError>
    ensures { IfOk result (λ body. string_bytes body ≡ page_body snapshot.now) }
{
    let mut text = String::from_str(alloc, page_front())?;
    put_head(snapshot, &mut text)?;
    put_summary(&snapshot.records, snapshot.ousted, &mut text)?;
    put_table_head(snapshot.version, &mut text)?;
    put_rows(&snapshot.records, &mut text)?;
    text.push_str(page_end())?;
    Ok(text)
}
