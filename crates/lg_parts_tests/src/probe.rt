//! Whom to probe, through whom, and what came of it.
mod relays;

use arrayvec::ArrayVec;
use lg_probe::{Helpers, Order, Round, choose_all, orders_have_room, windows_have_each};
use lg_rules::{MAX_OTHERS, Name};
use lg_testing::numbered;
use lg_testing::says::{Member, named, names_of};

/// Whether these are the names of these members.
fn are_named(names: &[Name], members: &[Member]) -> bool {
    names == names_of(members).as_slice()
}

/// Who is known, the words, and whom they choose.
const CHOSEN: &[(&[Member], &[u32], &[Member])] = &[
    (&["a", "b"], &[0, 0, 1, 0], &["a", "b", "b", "a"]),
    (&["b", "c", "d"], &[4, 0, 5], &["c", "b", "d"]),
    (&["a"], &[9, 9], &["a", "a"]),
    (&["a", "b"], &[], &[]),
    (&[], &[0, 7], &[]),
];

#[test]
fn chooses_by_words(rt: HostRuntime) {
    orders_have_room();
    windows_have_each();
    for (members, words, chosen) in CHOSEN {
        let names = names_of(members);
        let made = choose_all(rt.alloc(), names.as_slice(), words).expect(&rt, "there is memory");
        assert!(rt; are_named(made.as_slice(), chosen), "{words:?}: {made:?}");
    }
}

/// Something that happens to an order, or that is asked of it.
#[derive(Clone, Copy)]
enum Step {
    /// A member joins.
    Joins(Member),
    /// A member leaves.
    Leaves(Member),
    /// A word chooses a member.
    Chooses(u32, Option<Member>),
    /// Who has joined.
    Has(&'static [Member]),
    /// Who was chosen in this round.
    Chose(&'static [Member]),
}

/// Lets a member join, if the counts leave room for it.
#[tactic(auto, using(lg_probe::proofs::Joining::room_by_counts))]
fn join(order: &mut Order, name: &Name) {
    if order.names().len() + order.chosen().len() < MAX_OTHERS {
        order.join(name);
    }
}

/// An order that these members have joined.
fn order_of(members: &[Member]) -> Order {
    let mut order = Order::new();
    for member in members {
        join(&mut order, &named(member));
    }
    order
}

/// Plays a step. Returns whether it went as the step says.
fn plays(step: &Step, order: &mut Order) -> bool {
    match *step {
        Step::Joins(member) => {
            join(order, &named(member));
            true
        }
        Step::Leaves(member) => {
            order.leave(&named(member));
            true
        }
        Step::Chooses(word, member) => order.choose(word) == member.map(named),
        Step::Has(members) => are_named(order.names().as_slice(), members),
        Step::Chose(members) => are_named(order.chosen().as_slice(), members),
    }
}

/// A member that joins in the middle of a round is a candidate at once. One that comes back stays chosen.
const ORDERS: &[(&str, &[Step])] = &[
    (
        "some join",
        &[
            Step::Joins("d"),
            Step::Joins("b"),
            Step::Chooses(1, Some("d")),
            Step::Joins("c"),
            Step::Chooses(1, Some("c")),
            Step::Joins("a"),
            Step::Chooses(0, Some("a")),
            Step::Chooses(7, Some("b")),
            Step::Chooses(2, Some("c")),
            Step::Has(&["a", "b", "c", "d"]),
            Step::Chose(&["c"]),
        ],
    ),
    (
        "c comes back",
        &[
            Step::Joins("b"),
            Step::Joins("c"),
            Step::Joins("d"),
            Step::Chooses(1, Some("c")),
            Step::Leaves("c"),
            Step::Has(&["b", "d"]),
            Step::Joins("c"),
            Step::Chooses(1, Some("d")),
            Step::Leaves("b"),
            Step::Chooses(0, Some("c")),
            Step::Leaves("c"),
            Step::Leaves("d"),
            Step::Chooses(0, None),
            Step::Chose(&[]),
        ],
    ),
];

#[test]
fn chooses_among_those_that_join_and_leave(rt: HostRuntime) {
    for (case, steps) in ORDERS {
        let mut order = Order::new();
        for (number, step) in steps.iter().enumerate() {
            assert!(rt; plays(step, &mut order), "{case}, step {number}: {order:?}");
        }
    }
}

/// Names in any order.
type Names = ArrayVec<Name, MAX_OTHERS>;

/// Adds a name, if there is room.
fn add(names: &mut Names, name: Name) {
    if !names.is_full() {
        names.push(name);
    }
}

/// These names in their order.
fn sorted(names: &Names) -> Names {
    let mut sorted = ArrayVec::new();
    for name in names {
        add(&mut sorted, *name);
    }
    sorted.sort_unstable();
    sorted
}

/// An order as two rows of names, which looks for its candidates at each choice.
#[derive(Drop)]
struct SlowOrder {
    names: Names,
    chosen: Names,
}

impl SlowOrder {
    /// Nobody has joined.
    fn new() -> SlowOrder {
        SlowOrder {
            names: ArrayVec::new(),
            chosen: ArrayVec::new(),
        }
    }

    /// The names that aren't chosen, in their order.
    fn candidates(&self) -> Names {
        let mut candidates = ArrayVec::new();
        for name in &self.names {
            if !self.chosen.contains(name) {
                add(&mut candidates, *name);
            }
        }
        candidates.sort_unstable();
        candidates
    }

    /// Lets a member join.
    fn join(&mut self, name: Name) {
        if !self.names.contains(&name) {
            add(&mut self.names, name);
        }
    }

    /// Begins a new cycle if there is no candidate. Returns the candidates.
    fn candidates_now(&mut self) -> Names {
        let candidates = self.candidates();
        if !candidates.is_empty() {
            return candidates;
        }
        self.chosen.clear();
        self.candidates()
    }

    /// Chooses by a word, as `Order::choose` does.
    fn choose(&mut self, word: u32) -> Option<Name> {
        let candidates = self.candidates_now();
        let count = candidates.len();
        if count == 0 {
            return None;
        }
        let name = candidates[word as usize % count];
        add(&mut self.chosen, name);
        Some(name)
    }

    /// Whether a fast order has the same names and choices.
    fn is_same(&self, order: &Order) -> bool {
        order.names() == sorted(&self.names) && order.chosen() == sorted(&self.chosen)
    }
}

/// How many members join and leave during the choices below. Even if all are known and chosen, the counts leave room.
const MANY: u32 = 127;

/// How many choices are made.
const CHOICES: u32 = 1_000;

/// A member joins or leaves, by a word, or nobody does.
fn changes(word: u32, order: &mut Order, slow: &mut SlowOrder) {
    let name = numbered(word / 4 % MANY);
    match word % 4 {
        0 => {
            order.leave(&name);
            slow.names.retain(|other| *other != name);
        }
        1 | 2 => {
            join(order, &name);
            slow.join(name);
        }
        _ => {}
    }
}

#[test]
fn chooses_as_a_slow_order_does(rt: HostRuntime) {
    let mut order = Order::new();
    let mut slow = SlowOrder::new();
    for number in 0..MANY {
        join(&mut order, &numbered(number));
        slow.join(numbered(number));
    }
    let mut random = 2_026_u32;
    for number in 0..CHOICES {
        random = random.wrapping_mul(1_664_525).wrapping_add(1_013_904_223);
        changes(random >> 8, &mut order, &mut slow);
        let word = random >> 12;
        assert!(rt;
            order.choose(word) == slow.choose(word),
            "choice {number}: {order:?}"
        );
        assert!(rt; slow.is_same(&order), "after choice {number}: {order:?}");
    }
}

/// The index of the candidate that has so many before it, by a row that says who was chosen in the cycle.
fn candidate_at(chosen: &[bool; MAX_OTHERS], place: usize) -> Option<usize> {
    let mut left = place;
    for (index, is_chosen) in chosen.iter().enumerate() {
        if !*is_chosen {
            if left == 0 {
                return Some(index);
            }
            left -= 1;
        }
    }
    None
}

/// How many words choose below: four cycles of 255 members, but for the last choices of the fourth.
const WORDS: usize = 1_000;

#[test]
fn chooses_each_of_255_in_a_cycle(rt: HostRuntime) {
    let mut names: Names = ArrayVec::new();
    for number in 0..MAX_OTHERS as u32 {
        add(&mut names, numbered(number));
    }
    let mut words = [0_u32; WORDS];
    for index in 0..WORDS {
        words[index] = (index as u32).wrapping_mul(2_654_435_761) >> 7;
    }
    let made = choose_all(rt.alloc(), names.as_slice(), &words).expect(&rt, "there is memory");
    let mut chosen = [false; MAX_OTHERS];
    for (number, word) in words.iter().enumerate() {
        if number % MAX_OTHERS == 0 {
            chosen = [false; MAX_OTHERS];
        }
        let count = MAX_OTHERS - number % MAX_OTHERS;
        let index = candidate_at(&chosen, *word as usize % count).unwrap_or(0);
        assert!(rt; made.get(number) == names.get(index), "choice {number}");
        if index < MAX_OTHERS {
            chosen[index] = true;
        }
    }
}

/// Who is known, among them b, which is probed; how many helpers are asked; and whom the words 5, 5, 5 and 0 pick.
const PICKED: &[(&[Member], usize, &[Member])] = &[
    (&["b", "c", "d", "e", "f"], 3, &["d", "f", "e"]),
    (&["b", "c", "d", "e", "f"], 8, &["d", "f", "e", "c"]),
    (&["b", "c", "d", "e", "f"], 0, &[]),
    (&["b"], 3, &[]),
];

#[test]
fn picks_helpers(rt: HostRuntime) {
    let mut helpers = Helpers::new();
    for (members, count, picked) in PICKED {
        let order = order_of(members);
        helpers.pick(
            &order,
            &named("b"),
            (*count).min(8),
            &[5, 5, 5, 0, 0, 0, 0, 0],
        );
        assert!(rt; are_named(helpers.names(), picked), "{helpers:?}");
        for index in 0..helpers.names().len() {
            let likely = members.get(helpers.likely_index(index));
            assert!(rt; likely == picked.get(index), "{index} of {helpers:?}");
        }
    }
}

/// An Ack or a Nack of a member to a round, by its number, and whether it counts.
#[derive(Clone, Copy)]
enum Answer {
    /// An Ack.
    Ack(u32, Member, bool),
    /// A Nack.
    Nack(u32, Member, bool),
    /// c and d are asked.
    Asks,
}

/// Whether an answer counts as it says.
fn answers(answer: &Answer, round: &mut Round, helpers: &Helpers) -> bool {
    match *answer {
        Answer::Ack(number, sender, counts) => round.ack(number, &named(sender)) == counts,
        Answer::Nack(number, sender, counts) => round.nack(number, &named(sender)) == counts,
        Answer::Asks => {
            round.ask(helpers);
            are_named(round.asked(), &["c", "d"])
        }
    }
}

/// The number of a round whose target is b, its answers, and the mark that it earns.
const ROUNDS: &[(u32, &[Answer], i8)] = &[
    (7, &[], 1),
    (
        7,
        &[
            Answer::Ack(7, "c", false),
            Answer::Asks,
            Answer::Nack(6, "c", false),
            Answer::Nack(7, "e", false),
            Answer::Nack(7, "c", true),
            Answer::Nack(7, "c", false),
        ],
        2,
    ),
    (
        8,
        &[
            Answer::Asks,
            Answer::Nack(8, "d", true),
            Answer::Nack(8, "c", true),
        ],
        1,
    ),
    (
        9,
        &[
            Answer::Asks,
            Answer::Ack(9, "e", false),
            Answer::Ack(8, "b", false),
            Answer::Ack(9, "d", true),
            Answer::Ack(9, "b", false),
        ],
        0,
    ),
];

#[test]
fn a_round_earns_its_mark(rt: HostRuntime) {
    let mut helpers = Helpers::new();
    helpers.pick(&order_of(&["b", "c", "d"]), &named("b"), 2, &[0; 8]);
    for (number, list, mark) in ROUNDS {
        let mut round = Round::new(*number, &named("b"));
        let mut met = round.number() == *number && round.target() == named("b");
        for answer in *list {
            met = answers(answer, &mut round, &helpers) && met;
        }
        assert!(rt; met && round.end() == *mark, "round {number}, mark {mark}");
    }
}
