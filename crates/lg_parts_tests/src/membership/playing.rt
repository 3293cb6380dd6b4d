//! Plays steps on a membership. A case is a list of steps, all of them plain data. All steps share one assert,
//! because each assert is a branch that the check proves. Its message names the case and the step, counted from 0.
use arrayvec::ArrayVec;
use lg_membership::{Addressee, Applied, Deadline, MAX_MEMBERS, Membership, Origin, Presence};
use lg_rules::{Claim, MAX_CLAIMS, Name, Record};
use lg_testing::says::{Member, Said, are_said, claim_of, is_said, named};
use lg_testing::{at, failed, local, said};
use lg_timing::Config;
use std::process::Abort;

/// Something that happens to a membership, or that is asked of it.
#[derive(Clone, Copy)]
pub(super) enum Step {
    /// A member opens it at port 7000, with the default numbers.
    Opens(Member),
    /// A member opens it at port 7000, with a `wire`.
    OpensIn(Member, u64),
    /// These are said as seeds.
    Seeds(&'static [Said]),
    /// The group says a claim at a moment. This is what the claim does.
    Hears(u64, Said, Did),
    /// The group says a claim at a moment. This is what becomes of its member's presence, and how many members
    /// aren't gone then.
    Places(u64, Said, Presence, usize),
    /// The group says a claim at a moment.
    Says(u64, Said),
    /// It forgets a member.
    Forgets(Member),
    /// The claims of the next packet, which is neither a Ping nor an Ack.
    Sends(&'static [Said]),
    /// The claims of the next packet, a Ping to a member.
    Pings(Member, &'static [Said]),
    /// The claims of the next packet, an Ack to a member.
    Acks(Member, &'static [Said]),
    /// Whether a claim may still be sent.
    News(bool),
    /// How many members aren't gone.
    Live(usize),
    /// This member's incarnation.
    Number(u32),
    /// Whether it is ousted.
    Ousted(bool),
    /// This member's name.
    Own(Member),
    /// This member's record.
    OwnRecord(Said),
    /// The `lambda` of its configuration, or that it has none.
    Lambda(Option<u64>),
    /// The record of a member.
    Known(Member, Option<Said>),
    /// All records.
    Table(&'static [Said]),
    /// How many records there are.
    Members(usize),
    /// The page after a name, or the first page.
    Page(Option<Member>, &'static [Said]),
}

/// What a claim did.
#[derive(Clone, Copy)]
pub(super) struct Did {
    /// Whether it changed its member's record, which is then the one that stands.
    pub(super) changed: bool,
    /// Whether it was a suspicion that this member refuted.
    pub(super) refuted: bool,
    /// What became of the deadline of its member's suspicion.
    pub(super) deadline: Deadline,
    /// What became of its member's presence.
    pub(super) presence: Presence,
}

/// It changed nothing.
pub(super) const NOTHING: Did = Did {
    changed: false,
    refuted: false,
    deadline: Deadline::Stays,
    presence: Presence::Stays,
};

/// It changed a record, or this member's incarnation.
pub(super) const CHANGED: Did = Did {
    changed: true,
    ..NOTHING
};

/// It let a member join those that aren't gone.
pub(super) const JOINED: Did = Did {
    changed: true,
    presence: Presence::Joins,
    ..NOTHING
};

/// Opens a membership with a `wire` and otherwise the default numbers.
fn open(membership: &mut Membership, member: Member, wire: u64) -> bool {
    let mut config = Config::new(named(member), local(7000));
    config.wire = wire;
    let is_good = config.check().is_ok();
    if is_good {
        membership.open_with(&config);
    }
    is_good
}

/// Says claims as seeds.
fn seed(membership: &mut Membership, said: &[Said]) {
    for one in said {
        membership.apply(at(0), Origin::Seed, &claim_of(one));
    }
}

/// The group says a claim at a moment. Whether the claim did this.
pub(super) fn hears(membership: &mut Membership, now: u64, said: &Said, did: &Did) -> bool {
    let applied = say(membership, now, said);
    let record = membership.record_of(&claim_of(said).name);
    let expected = Applied {
        changed: if did.changed { record } else { None },
        refuted: did.refuted,
        deadline: did.deadline,
        presence: did.presence,
    };
    applied == expected
}

/// A claim that the group says at a moment.
fn say(membership: &mut Membership, now: u64, said: &Said) -> Applied {
    membership.apply(at(now), Origin::Group, &claim_of(said))
}

/// The claims of the next packet.
fn filled(membership: &mut Membership, to: &Addressee) -> ArrayVec<Claim, MAX_CLAIMS> {
    let mut claims = ArrayVec::new();
    membership.fill_into(to, &mut claims);
    claims
}

/// Whether the next packet has these claims.
fn fills(membership: &mut Membership, to: Addressee, said: &[Said]) -> bool {
    are_said(filled(membership, &to).as_slice(), said)
}

/// All records.
fn table_of(membership: &Membership) -> ArrayVec<Record, MAX_MEMBERS> {
    let mut table = ArrayVec::new();
    membership.put_table(&mut table);
    table
}

/// The page after a name, in a row that held another record before.
fn page_of(membership: &Membership, after: Option<&Name>) -> ArrayVec<Record, MAX_CLAIMS> {
    let mut row = said(&[failed(b'z', 9)]);
    membership.put_page(after, &mut row);
    row
}

/// Plays a step that changes the membership. Returns whether it went as the step says.
fn plays(step: &Step, membership: &mut Membership) -> bool {
    match *step {
        Step::Opens(member) => open(membership, member, 1),
        Step::OpensIn(member, wire) => open(membership, member, wire),
        Step::Seeds(said) => {
            seed(membership, said);
            true
        }
        Step::Hears(now, said, did) => hears(membership, now, &said, &did),
        Step::Places(now, said, presence, live) => {
            say(membership, now, &said).presence == presence && membership.live() == live
        }
        Step::Says(now, said) => {
            say(membership, now, &said);
            true
        }
        Step::Forgets(member) => {
            membership.forget(&named(member));
            true
        }
        Step::Sends(said) => fills(membership, Addressee::Anybody, said),
        Step::Pings(member, said) => fills(membership, Addressee::Pinged(named(member)), said),
        Step::Acks(member, said) => fills(membership, Addressee::Acked(named(member)), said),
        _ => is_met(step, membership),
    }
}

/// Whether the membership is what a step says.
fn is_met(step: &Step, membership: &Membership) -> bool {
    match *step {
        Step::News(news) => membership.has_news() == news,
        Step::Live(count) => membership.live() == count,
        Step::Number(number) => membership.number().number() == number,
        Step::Ousted(ousted) => membership.is_ousted() == ousted,
        Step::Own(member) => membership.name() == named(member),
        Step::OwnRecord(said) => membership.own_record() == claim_of(&said),
        Step::Lambda(lambda) => membership.config().map(|config| config.lambda) == lambda,
        Step::Known(member, said) => is_said(membership.record_of(&named(member)), &said),
        Step::Table(said) => are_said(table_of(membership).as_slice(), said),
        Step::Members(count) => table_of(membership).len() == count,
        Step::Page(after, said) => {
            let after = after.map(named);
            are_said(page_of(membership, after.as_ref()).as_slice(), said)
        }
        _ => false,
    }
}

/// Plays steps on a membership. The case's name and the step's number say which failed.
pub(super) fn play_on(rt: &impl Abort, membership: &mut Membership, case: &str, steps: &[Step]) {
    for (number, step) in steps.iter().enumerate() {
        assert!(rt;
            plays(step, membership),
            "{case}, step {number}: {membership:?}"
        );
    }
}

/// A case: its name, and its steps.
pub(super) type Case = (&'static str, &'static [Step]);

/// Plays each case on its own membership, to which nothing has happened.
pub(super) fn play(rt: &impl Abort, cases: &[Case]) {
    for (case, steps) in cases {
        play_on(rt, &mut Membership::blank(), case, steps);
    }
}
