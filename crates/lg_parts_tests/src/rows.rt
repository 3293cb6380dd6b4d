//! Rows whose items stay in their places: each call beside a plain list, while places are used again.
use lg_rows::Rows;
use lg_rules::{Name, index_in_rows, put_in_rows};
use lg_testing::numbered;
use std::alloc::AllocError;
use std::test::Fail;

/// What is done to a row of numbers.
#[derive(Clone, Copy, Debug)]
enum Step {
    Insert(usize, u16),
    Push(u16),
    Remove(usize),
    Replace(usize, u16),
    /// Adds to the number at an index, in its place.
    Add(usize, u16),
    Clear,
}

fn play<const N: usize>(rows: &mut Rows<u16, N>, step: Step) {
    match step {
        Step::Insert(at, number) => rows.insert(at, number),
        Step::Push(number) => rows.push(number),
        Step::Remove(at) => rows.remove(at),
        Step::Replace(at, number) => rows[at] = number,
        Step::Add(at, number) => {
            let item = &mut rows[at];
            *item += number;
        }
        Step::Clear => rows.clear(),
    }
}

fn play_list(list: &mut Vec<u16>, step: Step) -> Result<(), AllocError> {
    match step {
        Step::Insert(at, number) => list.insert(at, number)?,
        Step::Push(number) => list.push(number)?,
        Step::Remove(at) => {
            list.remove(at);
        }
        Step::Replace(at, number) => list[at] = number,
        Step::Add(at, number) => list[at] += number,
        Step::Clear => list.clear(),
    }
    Ok(())
}

/// Whether a row has these numbers, by each of its readings and of those of its copy.
fn has<const N: usize>(rows: &Rows<u16, N>, numbers: &[u16]) -> bool {
    let mut copy = Rows::new();
    rows.copy_into(&mut copy);
    let mut same = rows.len() == numbers.len()
        && rows.is_empty() == numbers.is_empty()
        && rows.is_full() == (numbers.len() == N)
        && copy.len() == rows.len()
        && rows.get(numbers.len()).is_none();
    for (index, number) in numbers.iter().enumerate() {
        same = same
            && rows[index] == *number
            && rows.get(index) == Some(number)
            && copy[index] == *number;
    }
    same
}

/// Steps of a row of at most four numbers, and the numbers after each.
const STEPS: &[(Step, &[u16])] = &[
    (Step::Push(5), &[5]),
    (Step::Insert(0, 3), &[3, 5]),
    (Step::Insert(1, 4), &[3, 4, 5]),
    (Step::Insert(3, 6), &[3, 4, 5, 6]),
    (Step::Replace(2, 50), &[3, 4, 50, 6]),
    (Step::Add(2, 1), &[3, 4, 51, 6]),
    (Step::Remove(1), &[3, 51, 6]),
    (Step::Insert(3, 7), &[3, 51, 6, 7]),
    (Step::Remove(0), &[51, 6, 7]),
    (Step::Remove(2), &[51, 6]),
    (Step::Push(8), &[51, 6, 8]),
    (Step::Insert(0, 9), &[9, 51, 6, 8]),
    (Step::Remove(3), &[9, 51, 6]),
    (Step::Clear, &[]),
    (Step::Push(1), &[1]),
    (Step::Insert(0, 2), &[2, 1]),
    (Step::Insert(1, 3), &[2, 3, 1]),
    (Step::Push(4), &[2, 3, 1, 4]),
];

#[test]
fn does_each_step(rt: HostRuntime) {
    let mut rows: Rows<u16, 4> = Rows::new();
    assert!(rt; has(&rows, &[]));
    for (step, numbers) in STEPS {
        play(&mut rows, *step);
        assert!(rt; has(&rows, numbers), "{step:?}");
    }
}

/// A step that a row of some numbers can take, by one of the numbers that a generator gives.
fn step_of(random: u32, len: usize, room: usize) -> Step {
    let number = ((random >> 8) & 1023) as u16;
    let at = (random >> 20) as usize;
    match random % 5 {
        0 | 1 if len < room => Step::Insert(at % (len + 1), number),
        2 if len < room => Step::Push(number),
        3 if len > 0 => Step::Replace(at % len, number),
        _ if len > 0 => Step::Remove(at % len),
        _ => Step::Clear,
    }
}

/// 4,000 steps of a row of at most 37 numbers.
#[test]
fn is_the_list_of_its_items(rt: HostRuntime) -> Result<(), Fail> {
    let mut rows: Rows<u16, 37> = Rows::new();
    let mut list = Vec::new(rt.alloc());
    let mut random: u64 = 1;
    for turn in 0..4_000 {
        random = (random * 1_103_515_245 + 12_345) % (1 << 31);
        let step = step_of((random >> 3) as u32, list.len(), 37);
        play(&mut rows, step);
        play_list(&mut list, step)?;
        assert!(rt; has(&rows, list.as_slice()), "{step:?} in turn {turn}");
    }
    Ok(())
}

/// The names with even numbers, put in an order of their own: each is found at its index, and of the odd ones it is
/// found where they belong.
#[test]
fn finds_names(rt: HostRuntime) {
    let mut rows: Rows<Name, 64> = Rows::new();
    for turn in 0..64 {
        put_in_rows(&mut rows, numbered(100 + 2 * (turn * 37 % 64)));
    }
    put_in_rows(&mut rows, numbered(100));
    assert!(rt; rows.is_full());
    for index in 0..64 {
        let number = 100 + 2 * index as u32;
        assert_eq!(rt;
            index_in_rows(&rows, &numbered(number)),
            Ok(index),
            "{number}"
        );
        assert_eq!(rt;
            index_in_rows(&rows, &numbered(number + 1)),
            Err(index + 1),
            "{number}"
        );
    }
    assert_eq!(rt; index_in_rows(&rows, &numbered(99)), Err(0));
}
