//! The order of probing: cycles, in each of which each member is chosen once.
//!
//! Defined in: `specs/Meaning/Order.antt`, `specs/Meaning/Helpers.antt`.
//! Tested in: `lg_parts_tests/src/probe.rt`.
ghost use Rattle.std.specs.Prelude.{◌≡◌, ◌≤◌, true, ℕ, List, [], ◌∷◌, ◌++◌, length, ◌==◌};
ghost use Rattle.std.specs.Prelude.{IfOk, OnOk};
ghost use Rattle.std.specs.Option.{option_to_list};
ghost use Rattle.arrayvec.specs.ArrayVec.{array_vec_len};
ghost use Rattle.lg_rules.specs.Meaning.Rows.{name_cmp, is_among, put_key, Rises};
ghost use Rattle.lg_probe.specs.Meaning.Order.{current_cycle, choice, without};
ghost use Rattle.lg_probe.specs.Meaning.Order.{choice_after, ever_joined, known_names, picks, then_joined};
ghost use Rattle.lg_probe.specs.Meaning.Order.{OrderFact, Joined, Left, Chose, Forgot, order_after, order_with};
ghost use Rattle.lg_probe.specs.Meaning.Order.{EachInWindows, choices_after, names_after, window};
ghost use Rattle.lg_probe.specs.Meaning.Helpers.{picked_by};

use crate::names::entries;
use crate::picks::{number_by, others_than, pick_all};
use arrayvec::ArrayVec;
use lg_bit_set::BitSet;
use lg_rules::{MAX_OTHERS, Name, RANDOM_WORDS, index_of};
use std::alloc::{AllocError, Global};
use std::marker::Model;

/// The members that are probed, and those of them that were chosen in the current cycle (SWIM, section 4.3).
///
/// At most 255 names are known: those that have joined and not left, and those chosen in the current cycle. No call
/// allocates memory. A contract sees the two sets, each in the order of names.
#[derive(Debug, Drop)]
pub struct Order {
    // All known names, in their order. The two sets have indexes of this row, so that a choice moves no names.
    known: ArrayVec<Name, MAX_OTHERS>,
    // The names that have joined and not left.
    joined: BitSet,
    // The names that were chosen in the current cycle.
    chosen: BitSet,
}

impl Model for Order {
    ghost use Rattle.lg_probe.specs.Meaning.Order.{OrderValue};
    ghost use Rattle.lg_probe.specs.Support.Order.{order_in, IsOrderKept};

    ghost Value = { OrderValue };

    ghost view = { λ o. order_in o.known.items o.joined o.chosen };

    ghost invariant = { λ o. IsOrderKept o.known.items o.joined o.chosen };
}

impl Order {
    /// An order that nobody has joined.
    pub fn new() -> Order
        ensures { result ≡ order_after [] }
    {
        Order {
            known: ArrayVec::new(),
            joined: BitSet::new(),
            chosen: BitSet::new(),
        }
    }

    /// Overwrites another order by this one, in place. Copies no more names than there are. Allocates no memory.
    pub fn copy_into(&self, into: &mut Order)
        ensures { into.new ≡ self.now }
    {
        into.known.clear();
        into.known.try_extend_from_slice(&self.known).unwrap();
        into.joined = self.joined;
        into.chosen = self.chosen;
    }

    /// The names that have joined and not left, at most 255, in the order of names (SWIM, section 4.3). This goes over
    /// all known names.
    pub fn names(&self) -> ArrayVec<Name, MAX_OTHERS>
        ensures names { result.items ≡ self.now.names }
        ensures few { length result.items ≤ MAX_OTHERS }
        ensures rises { Rises name_cmp result.items }
    {
        entries(self.known.as_slice(), &self.joined)
    }

    /// Whether it has no names: each that joined has left. This copies no names.
    pub fn is_empty(&self) -> bool
        ensures { result ≡ (length self.now.names == 0) }
    {
        self.joined.is_empty()
    }

    /// The names that were chosen in the current cycle, at most 255, in the order of names (SWIM, section 4.3). This
    /// goes over all known names.
    pub fn chosen(&self) -> ArrayVec<Name, MAX_OTHERS>
        ensures chosen { result.items ≡ self.now.chosen }
        ensures few { length result.items ≤ MAX_OTHERS }
    {
        entries(self.known.as_slice(), &self.chosen)
    }

    /// Begins a new cycle, in which each name is a candidate. The names that have left are forgotten, and only if
    /// there are any is the row written again.
    fn begin_cycle(&mut self)
        ensures { self.new ≡ record { names = self.old.names; chosen = [] } }
    {
        self.chosen.clear();
        if self.joined.len() < self.known.len() {
            self.known = entries(self.known.as_slice(), &self.joined);
            self.joined = BitSet::below(self.known.len());
        }
    }

    /// Begins a new cycle if no candidate remains.
    fn end_cycle_if_over(&mut self)
        ensures { let cycle = current_cycle self.old.names self.old.chosen in
            self.new ≡ record { names = self.old.names; chosen = cycle } }
    {
        if self.joined.without(&self.chosen).is_empty() {
            self.begin_cycle();
        }
    }

    /// Chooses whom to probe by a random word, or nobody if there are no names.
    ///
    /// The candidates are the names that aren't chosen in the current cycle, in the order of names. If there are
    /// none, a new cycle begins, in which all names are candidates. The word modulo their number is the index of the
    /// one that is chosen, from 0. It counts as chosen in the cycle.
    pub fn choose(&mut self, word: u32) -> Option<Name>
        ensures chosen { result ≡ choice self.old.names self.old.chosen word }
        ensures order { self.new ≡ order_with self.old (Chose word) }
        // If the order was the one after some facts (the latest first), this is the choice after those, and the order
        // is now the one after those and this choice.
        ensures past { (past : List OrderFact) → self.old ≡ order_after past
            → (result ≡ choice_after past word) × (self.new ≡ order_after (Chose word ∷ past)) }
    {
        self.end_cycle_if_over();
        let number = number_by(&self.joined.without(&self.chosen), word)?;
        self.chosen.insert(number);
        Some(self.known[usize::from(number)])
    }

    /// Lets a member join. It is a candidate at once, unless it was chosen in the current cycle.
    ///
    /// With it, at most 255 names may be known: those that have joined and not left, and those chosen in the current
    /// cycle. That holds as long as, with it, at most 255 names have ever joined and weren't forgotten since.
    pub fn join(&mut self, name: &Name)
        requires { length (put_key name_cmp name.now (known_names self.old)) ≤ MAX_OTHERS }
        ensures order { self.new ≡ order_with self.old (Joined name.now) }
        ensures past { (past : List OrderFact) → self.old ≡ order_after past
            → self.new ≡ order_after (Joined name.now ∷ past) }
    {
        match index_of(self.known.as_slice(), name) {
            Ok(at) => self.joined.insert(at as u8),
            Err(at) => {
                self.known.insert(at, *name);
                self.joined.open(at as u8);
                self.joined.insert(at as u8);
                self.chosen.open(at as u8);
            }
        }
    }

    /// Lets a member leave. It isn't a candidate until it joins again. If it was chosen in the current cycle, it
    /// stays chosen.
    pub fn leave(&mut self, name: &Name)
        ensures order { self.new ≡ order_with self.old (Left name.now) }
        ensures past { (past : List OrderFact) → self.old ≡ order_after past
            → self.new ≡ order_after (Left name.now ∷ past) }
    {
        if let Ok(at) = index_of(self.known.as_slice(), name) {
            self.joined.remove(at as u8);
            if !self.chosen.contains(at as u8) {
                self.known.remove(at);
                self.joined.close(at as u8);
                self.chosen.close(at as u8);
            }
        }
    }

    /// Forgets a member: it leaves, and counts as chosen no longer. If it joins again, it is a candidate at once.
    pub fn forget(&mut self, name: &Name)
        ensures order { self.new ≡ order_with self.old (Forgot name.now) }
        ensures past { (past : List OrderFact) → self.old ≡ order_after past
            → self.new ≡ order_after (Forgot name.now ∷ past) }
    {
        if let Ok(at) = index_of(self.known.as_slice(), name) {
            self.joined.remove(at as u8);
            self.chosen.remove(at as u8);
            self.known.remove(at);
            self.joined.close(at as u8);
            self.chosen.close(at as u8);
        }
    }

    /// Picks one of the names by each word, as long as any is left. The target is never picked. The picked names
    /// replace what `picked` held. At the index of each, `indexes` gets its index in the row of names that are known.
    pub(crate) fn pick(
        &self,
        target: &Name,
        words: &[u32],
        picked: &mut ArrayVec<Name, RANDOM_WORDS>,
        indexes: &mut [u8; RANDOM_WORDS],
    )
        requires { length words.now ≤ RANDOM_WORDS }
        ensures { picked.new.items ≡ picked_by words.now (without target.now self.now.names) }
    {
        let left = others_than(self.known.as_slice(), &self.joined, target);
        pick_all(self.known.as_slice(), left, words, picked, indexes);
    }

    /// Picks one of the names by each word, as long as any is left, as `pick` does, but leaves nobody out. The picked
    /// names replace what `picked` held, and `indexes` is filled as by `pick`.
    pub(crate) fn pick_any(
        &self,
        words: &[u32],
        picked: &mut ArrayVec<Name, RANDOM_WORDS>,
        indexes: &mut [u8; RANDOM_WORDS],
    )
        requires { length words.now ≤ RANDOM_WORDS }
        ensures { picked.new.items ≡ picked_by words.now self.now.names }
    {
        pick_all(self.known.as_slice(), self.joined, words, picked, indexes);
    }
}

/// An order that these names have joined, and of which none is chosen.
fn order_of(names: &[Name]) -> Order
    requires { length names.now ≤ MAX_OTHERS }
    ensures { result ≡ order_after (then_joined names.now []) }
{
    let mut order = Order::new();
    for name in names {
        order.join(name);
    }
    order
}

/// Adds the one that was chosen, if anybody was.
fn push_chosen(chosen: &mut Vec<Name>, name: Option<Name>) -> Result<(), AllocError>
    ensures { OnOk result (chosen.new.items ≡ chosen.old.items ++ option_to_list name) }
{
    if let Some(name) = name {
        chosen.push(name)?;
    }
    Ok(())
}

/// Whom some words choose, one after another, of at most 255 names, in cycles that choose each name once (SWIM,
/// section 4.3). A name that is given twice counts once. With no names, nobody is chosen.
///
/// Memory is allocated for the choices, one for each word. The error says that it was refused.
pub fn choose_all(alloc: Global, names: &[Name], words: &[u32]) -> Result<Vec<Name>, AllocError>
    requires { length names.now ≤ MAX_OTHERS }
    ensures chosen { IfOk result (λ chosen. chosen.items ≡ picks names.now words.now) }
    // Any 2p - 1 choices in a row have each of the p names.
    ensures windows { IfOk result (λ chosen. EachInWindows names.now words.now chosen.items) }
    ensures none { IfOk result (λ chosen. names.now ≡ [] → chosen.items ≡ []) }
{
    let mut order = order_of(names);
    let mut chosen = Vec::new(alloc);
    for word in words {
        push_chosen(&mut chosen, order.choose(*word))?;
    }
    Ok(chosen)
}

/// An order has room for a name as long as at most 255 names have ever joined and weren't forgotten since, that one
/// included (this project's choice). This is a law, and the call does nothing.
pub fn orders_have_room()
    ensures { (past : List OrderFact) (name : List ℕ) → length (ever_joined (Joined name ∷ past)) ≤ MAX_OTHERS
        → length (put_key name_cmp name (known_names (order_after past))) ≤ MAX_OTHERS }
{}

/// While the names stay the same, any 2p - 1 choices in a row choose each of the p names, from whatever state of a
/// cycle they begin (SWIM, section 4.3). With no names, nobody is chosen. This is a law, and the call does nothing.
pub fn windows_have_each()
    ensures each { (past : List OrderFact) (words : List ℕ) (name : List ℕ)
        → is_among name_cmp name (names_after past) ≡ true → window (names_after past) ≤ length words
        → is_among name_cmp name (choices_after past words) ≡ true }
    ensures none { (past : List OrderFact) (words : List ℕ) → names_after past ≡ []
        → choices_after past words ≡ [] }
{}
