//! The command `order`: whom words choose one after another from some names.
//!
//! Defined in: `specs/Meaning/Choosing.antt`, `specs/Meaning/Running.antt`, `specs/Meaning/Faults.antt`.
//! Tested in: `cases/order.case`.
ghost use Rattle.std.specs.Prelude.{◌≡◌, false, Ok, Err, IfErr, IfOk};
ghost use Rattle.std.specs.Option.{option_map};
ghost use Rattle.lg_rules.specs.Meaning.Rows.{name_cmp, is_among};
ghost use Rattle.lg_commands.specs.Meaning.Choosing.{are_different, name_lines, names_of_text};
ghost use Rattle.lg_commands.specs.Meaning.Choosing.{order_text, words_of_text};
ghost use Rattle.lg_commands.specs.Meaning.Faults.{bad_list_text};
ghost use Rattle.lg_commands.specs.Meaning.Running.{is_order_unwritten, IsFaultOf};

use arrayvec::ArrayVec;
use lg_probe::choose_all;
use lg_rules::{MAX_OTHERS, Name};
use lg_script::random_word_in;
use lg_text::RunFault;
use std::alloc::{AllocError, Global};
use thiserror::Error;

/// Which list of `order` is bad. The names are judged first.
#[derive(Clone, Copy, Debug, PartialEq, Eq, Error)]
pub enum BadList {
    /// A part is no name, a name stands twice, or there are more than 255 names.
    #[error("the names have to be 1 to {most} different ones between commas", most = MAX_OTHERS)]
    Names,
    /// The names are good, but a part of the words is no number of 1 to 16 digits up to 4,294,967,295.
    #[error("the words have to be numbers from 0 to {most} between commas", most = u32::MAX)]
    Words,
}

impl BadList {
    /// The line that reports the list, with its newline.
    pub fn text(self) -> &'static str
        ensures { result.now ≡ bad_list_text self }
    {
        match self {
            BadList::Names => "lg: bad names\n",
            BadList::Words => "lg: bad words\n",
        }
    }
}

/// Why `order` wrote no choices, or not all of them.
#[derive(Clone, Copy, Debug, PartialEq, Eq, Error)]
pub enum OrderFault {
    /// A list is bad; nothing was written.
    #[error(transparent)]
    Bad(BadList),
    /// The run failed, because of memory or because of writing.
    #[error(transparent)]
    Run(RunFault),
}

impl From<BadList> for OrderFault {
    ghost use Rattle.std.specs.Prelude.{◌≡◌};
    ghost use Rattle.lg_commands.specs.declared.order.OrderFault.TheVariants.{Bad};

    ghost from_gives = { λ list fault. fault ≡ Bad list };

    fn from(list: BadList) -> OrderFault {
        OrderFault::Bad(list)
    }
}

impl From<RunFault> for OrderFault {
    ghost use Rattle.std.specs.Prelude.{◌≡◌};
    ghost use Rattle.lg_commands.specs.declared.order.OrderFault.TheVariants.{Run};

    ghost from_gives = { λ failed fault. fault ≡ Run failed };

    fn from(failed: RunFault) -> OrderFault {
        OrderFault::Run(failed)
    }
}

impl From<AllocError> for OrderFault {
    ghost use Rattle.std.specs.Prelude.{◌≡◌};
    ghost use Rattle.lg_text.specs.declared.fault.RunFault.TheVariants.{Memory};
    ghost use Rattle.lg_commands.specs.declared.order.OrderFault.TheVariants.{Run};

    ghost from_gives = { λ _ fault. fault ≡ Run Memory };

    fn from(_refused: AllocError) -> OrderFault {
        OrderFault::Run(RunFault::Memory)
    }
}

/// Whether a name is one of these.
fn is_among(names: &[Name], name: &Name) -> bool
    ensures { result ≡ is_among name_cmp name.now names.now }
{
    names.contains(name)
}

/// Whether no name stands twice.
fn are_different(names: &[Name]) -> bool
    ensures { result ≡ are_different names.now }
{
    match names {
        [] => true,
        [name, others @ ..] => !is_among(others, name) && are_different(others),
    }
}

/// The names between the commas of a text, if each part is a name, all are different, and there are at most 255.
fn names_in(text: &str) -> Option<ArrayVec<Name, MAX_OTHERS>>
    ensures { option_map (λ names. names.items) result ≡ names_of_text text.now }
{
    let mut names = ArrayVec::new();
    for part in text.split(',') {
        let name = Name::new(part.as_bytes()).ok()?;
        names.try_push(name).ok()?;
    }
    are_different(names.as_slice()).then_some(names)
}

/// The words between the commas of a text, if each part is a word. An empty text has none.
fn words_in(alloc: Global, text: &str) -> Result<Option<Vec<u32>>, AllocError>
    ensures { IfOk result (λ words. option_map (λ v. v.items) words ≡ words_of_text text.now) }
{
    let mut words = Vec::new(alloc);
    if text.is_empty() {
        return Ok(Some(words));
    }
    for part in text.split(',') {
        match random_word_in(part.as_bytes()) {
            Some(word) => words.push(word)?,
            None => return Ok(None),
        }
    }
    Ok(Some(words))
}

/// Some names, a line each.
fn name_lines(alloc: Global, names: &[Name]) -> Result<Vec<u8>, AllocError>
    ensures { IfOk result (λ text. text.items ≡ name_lines names.now) }
{
    let mut text = Vec::new(alloc);
    for name in names {
        text.extend_from_slice(name.as_bytes())?;
        text.push(b'\n')?;
    }
    Ok(text)
}

/// What the command `order` writes for a text of names and a text of words: whom the words choose one after another
/// from the names (SWIM, section 4.3), a line each.
///
/// The names stand between commas: 1 to 255 different ones, in any order. So do the words, of 1 to 16 decimal digits
/// each, 0 to 4,294,967,295. An empty text has no words (this project's choice). For any other texts the fault is
/// [`OrderFault::Bad`]. The names are judged first, and judging them allocates no memory. The only other fault is
/// that memory was refused. For each number of names, time and memory are in proportion to the words.
pub fn order(alloc: Global, names: &str, words: &str) -> Result<Vec<u8>, OrderFault>
    ensures text { IfOk result (λ text. order_text names.now words.now ≡ Ok text.items) }
    ensures refused { IfErr result (IsFaultOf (order_text names.now words.now)) }
    // Bad names are told even if memory is refused.
    ensures names { order_text names.now words.now ≡ Err BadList.Names
        → result ≡ Err (OrderFault.Bad BadList.Names) }
    ensures unwritten { IfErr result (λ fault. is_order_unwritten fault ≡ false) }
{
    let names = names_in(names).ok_or(BadList::Names)?;
    let words = words_in(alloc, words)?.ok_or(BadList::Words)?;
    let chosen = choose_all(alloc, names.as_slice(), words.as_slice())?;
    let text = name_lines(alloc, chosen.as_slice())?;
    Ok(text)
}
