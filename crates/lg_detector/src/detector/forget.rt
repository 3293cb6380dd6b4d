//! Forgetting members that are gone (this project's choice). A member is forgotten when its timer `Forget` fires, or to
//! make room for another one: `facts.rt` sets the timer, and `tick.rt` fires it. From then on its name is unknown.
//!
//! If 255 others are known, and a packet has a claim that another one is alive or suspected, the member whose timer
//! `Forget` would fire first is forgotten before the claim is applied. If no member is gone, the claim does nothing.
//!
//! Defined in: `specs/Meaning/Forget.antt`, `specs/Meaning/Apply.antt`, `specs/Support/State.antt`.
//! Tested in: `lg_news_tests/src/forgetting.rt`.
ghost use Rattle.std.specs.Prelude.{◌≡◌, ◌<◌, ◌≤◌, ◌++◌, length, map, None};
ghost use Rattle.arrayvec.specs.ArrayVec.{array_vec_len};
ghost use Rattle.lg_rules.specs.Meaning.Claim.{name_of};
ghost use Rattle.lg_rules.specs.Meaning.Rows.{name_cmp, row_at, Rises};
ghost use Rattle.lg_rules.specs.declared.claim.Status.TheVariants.{Suspect};
ghost use Rattle.lg_rules.specs.Meaning.View.{changed, is_row, is_same_claim, is_same_ip, is_same_status};
ghost use Rattle.lg_detector.specs.Support.State.{forget_name, forget_id, forgotten_id, make_room_state, forgotten_for};
ghost use Rattle.lg_detector.specs.Support.State.{hear_each_state, forgotten_each, records_about};
ghost use Rattle.lg_detector.specs.Support.Step.{view_state};

use super::Detector;
use super::facts::put_changed;
use super::tick::put_forgotten;
use crate::reply::{MAX_CHANGED, MAX_FORGOTTEN};
use arrayvec::ArrayVec;
use lg_membership::Origin;
use lg_rules::{Claim, Ip, MAX_CLAIMS, Name, Record, Status, index_of};
use lg_timers::TimerId;

/// Whether two IP addresses are the same.
fn is_same_ip(ip: &Ip, other: &Ip) -> bool
    ensures { result ≡ is_same_ip ip.now other.now }
{
    match (ip, other) {
        (Ip::V4(octets), Ip::V4(others)) => *octets == *others,
        (Ip::V6(octets), Ip::V6(others)) => *octets == *others,
        (Ip::V4(_), Ip::V6(_)) | (Ip::V6(_), Ip::V4(_)) => false,
    }
}

/// Whether a status is that somebody is suspected by this member.
fn is_suspect_by(status: &Status, accuser: &Name) -> bool
    ensures { result ≡ is_same_status (Suspect accuser.now) status.now }
{
    match status {
        Status::Suspect(other) => accuser.cmp(other).is_eq(),
        Status::Alive | Status::Failed | Status::Left => false,
    }
}

/// Whether two statuses are the same.
fn is_same_status(status: &Status, other: &Status) -> bool
    ensures { result ≡ is_same_status status.now other.now }
{
    match status {
        Status::Alive => matches!(other, Status::Alive),
        Status::Suspect(accuser) => is_suspect_by(other, accuser),
        Status::Failed => matches!(other, Status::Failed),
        Status::Left => matches!(other, Status::Left),
    }
}

/// Whether two records are the same.
fn is_same_record(first: &Record, second: &Record) -> bool
    ensures { result ≡ is_same_claim first.now second.now }
{
    first.name.cmp(&second.name).is_eq()
        && is_same_ip(&first.addr.ip, &second.addr.ip)
        && first.addr.port == second.addr.port
        && is_same_status(&first.status, &second.status)
        && first.incarnation == second.incarnation
}

/// Whether a record is the one of its name among these.
fn is_among(before: &[Record], current: &Record) -> bool
    requires { Rises name_cmp (map name_of before.now) }
    ensures { result ≡ is_row current.now (row_at name_cmp name_of current.now.name before.now) }
{
    match index_of(before, &current.name) {
        Ok(at) => is_same_record(&before[at], current),
        Err(_) => false,
    }
}

impl Detector {
    /// Forgets a member: whatever timers it has are cancelled, nobody chooses it any more, and its name is unknown.
    #[tactic(auto, unfolding(crate::specs::Support::State::forget_name))]
    #[inline(never)]
    pub(super) fn forget(&mut self, name: &Name)
        ensures { self.new ≡ forget_name name.now self.old }
    {
        let parts = &mut *self.parts;
        parts.timers.cancel(&TimerId::Suspicion(*name));
        parts.timers.cancel(&TimerId::Forget(*name));
        parts.order.forget(name);
        parts.membership.forget(name);
    }

    /// Forgets the member that a timer forgets, if it forgets one. Appends its name to those that were forgotten.
    fn forget_by(&mut self, id: &TimerId, forgotten: &mut ArrayVec<Name, MAX_FORGOTTEN>)
        requires { array_vec_len forgotten.old < MAX_FORGOTTEN }
        ensures state { self.new ≡ forget_id id.now self.old }
        ensures forgotten { forgotten.new.items ≡ forgotten.old.items ++ forgotten_id id.now }
    {
        put_forgotten(id, forgotten);
        if let TimerId::Forget(name) = id {
            self.forget(name);
        }
    }

    /// Makes room for a claim's member, if that needs it and a member is gone. Appends the name of that one to those
    /// that were forgotten.
    #[tactic(auto, unfolding(crate::specs::Support::State::make_room_state))]
    fn make_room(&mut self, claim: &Claim, forgotten: &mut ArrayVec<Name, MAX_FORGOTTEN>)
        requires { array_vec_len forgotten.old < MAX_FORGOTTEN }
        ensures state { self.new ≡ make_room_state claim.now self.old }
        ensures forgotten { forgotten.new.items ≡ forgotten.old.items ++ forgotten_for claim.now self.old }
    {
        if !self.parts.membership.needs_room(claim) {
            return;
        }
        if let Some(timer) = self.parts.timers.first_forget() {
            self.forget_by(&timer.id, forgotten);
        }
    }

    /// Applies the claims of a packet, one after another, each once there is room for its member. Overwrites
    /// `differing` with the records that changed by them, in the order of names, and `forgotten` with the names that
    /// were forgotten. `teller` is who tells them in a table that is merged gently, if they come in one.
    pub(super) fn say(
        &mut self,
        teller: &Option<Name>,
        claims: &[Claim],
        differing: &mut ArrayVec<Record, MAX_CHANGED>,
        forgotten: &mut ArrayVec<Name, MAX_FORGOTTEN>,
    )
        requires { length claims.now ≤ MAX_CLAIMS }
        ensures state { self.new ≡ hear_each_state teller.now claims.now self.old }
        ensures differing { differing.new.items
            ≡ changed (view_state self.old) (view_state (hear_each_state teller.now claims.now self.old)) }
        ensures forgotten { forgotten.new.items ≡ forgotten_each teller.now claims.now self.old }
    {
        match teller {
            Some(_) => self.say_in_room(teller, claims, differing, forgotten),
            None => self.say_as_told(claims, differing, forgotten),
        }
    }

    /// The same for claims that come in no such table.
    fn say_as_told(
        &mut self,
        claims: &[Claim],
        differing: &mut ArrayVec<Record, MAX_CHANGED>,
        forgotten: &mut ArrayVec<Name, MAX_FORGOTTEN>,
    )
        requires { length claims.now ≤ MAX_CLAIMS }
        ensures state { self.new ≡ hear_each_state None claims.now self.old }
        ensures differing { differing.new.items
            ≡ changed (view_state self.old) (view_state (hear_each_state None claims.now self.old)) }
        ensures forgotten { forgotten.new.items ≡ forgotten_each None claims.now self.old }
    {
        if self.parts.membership.has_room_for(claims.len()) {
            forgotten.clear();
            self.say_each(claims, differing);
        } else {
            self.say_in_room(&None, claims, differing, forgotten);
        }
    }

    /// The same where a claim may lack room, and for those of a table. A record that was forgotten and came back may be
    /// the one from before, so the records that claims are about are compared with those before all claims.
    #[inline(never)]
    fn say_in_room(
        &mut self,
        teller: &Option<Name>,
        claims: &[Claim],
        differing: &mut ArrayVec<Record, MAX_CHANGED>,
        forgotten: &mut ArrayVec<Name, MAX_FORGOTTEN>,
    )
        requires { length claims.now ≤ MAX_CLAIMS }
        ensures state { self.new ≡ hear_each_state teller.now claims.now self.old }
        ensures differing { differing.new.items
            ≡ changed (view_state self.old) (view_state (hear_each_state teller.now claims.now self.old)) }
        ensures forgotten { forgotten.new.items ≡ forgotten_each teller.now claims.now self.old }
    {
        // The proof needs what the invariant says of the state at the start.
        let _ = &self.parts;
        let before = self.records_about(claims);
        self.hear_each(teller, claims, forgotten);
        self.put_differing(claims, before.as_slice(), differing);
    }

    /// Applies claims one after another, each once there is room for its member. Overwrites `forgotten` with the names
    /// that were forgotten.
    fn hear_each(
        &mut self,
        teller: &Option<Name>,
        claims: &[Claim],
        forgotten: &mut ArrayVec<Name, MAX_FORGOTTEN>,
    )
        requires { length claims.now ≤ MAX_CLAIMS }
        ensures state { self.new ≡ hear_each_state teller.now claims.now self.old }
        ensures forgotten { forgotten.new.items ≡ forgotten_each teller.now claims.now self.old }
    {
        forgotten.clear();
        for claim in claims {
            self.make_room(claim, forgotten);
            let said = self.as_merged(teller, claim);
            self.apply(Origin::Group, &said);
        }
    }

    /// The records of those that claims are about, as far as they are known, in the order of names.
    fn records_about(&self, claims: &[Claim]) -> ArrayVec<Record, MAX_CLAIMS>
        requires { length claims.now ≤ MAX_CLAIMS }
        ensures records { result.items ≡ records_about claims.now (view_state self.now) }
        ensures rises { Rises name_cmp (map name_of result.items) }
    {
        // The proof needs what the invariant says of the state.
        let _ = &self.parts;
        let mut records = ArrayVec::new();
        for claim in claims {
            put_changed(&mut records, self.record_of(&claim.name));
        }
        records
    }

    /// Overwrites `differing` with the records of those that claims are about, where they aren't among these from
    /// before.
    fn put_differing(
        &self,
        claims: &[Claim],
        before: &[Record],
        differing: &mut ArrayVec<Record, MAX_CHANGED>,
    )
        requires few { length claims.now ≤ MAX_CLAIMS }
        requires rises { Rises name_cmp (map name_of before.now) }
        ensures { differing.new.items ≡ records_about claims.now (changed before.now (view_state self.now)) }
    {
        // The proof needs what the invariant says of the state.
        let _ = &self.parts;
        differing.clear();
        for claim in claims {
            put_changed(differing, self.differing_from(before, &claim.name));
        }
    }

    /// The record of a name, unless it is among these from before.
    fn differing_from(&self, before: &[Record], name: &Name) -> Option<Record>
        requires { Rises name_cmp (map name_of before.now) }
        ensures { result ≡ row_at name_cmp name_of name.now (changed before.now (view_state self.now)) }
    {
        // The proof needs what the invariant says of the state.
        let _ = &self.parts;
        let record = self.record_of(name)?;
        if is_among(before, &record) {
            None
        } else {
            Some(record)
        }
    }
}
