//! Sets of numbers: each call on numbers at the borders of their 64-bit words.
use lg_bit_set::{BitSet, NUMBERS};

const BORDERS: [u8; 7] = [0, 63, 64, 127, 128, 191, 255];

fn set_of(numbers: &[u8]) -> BitSet {
    let mut set = BitSet::default();
    for number in numbers {
        set.insert(*number);
    }
    set
}

#[test]
fn holds_what_was_inserted(rt: HostRuntime) {
    let mut set = set_of(&BORDERS);
    assert_eq!(rt; set.len(), BORDERS.len());
    assert_eq!(rt; set.nth(BORDERS.len()), None);
    for (index, number) in BORDERS.iter().enumerate() {
        assert!(rt;
            set.contains(*number) && !set.contains(*number ^ 2),
            "{number}"
        );
        assert_eq!(rt; set.nth(index), Some(*number));
    }
    for number in BORDERS {
        assert_eq!(rt; set.first(), Some(number));
        assert_eq!(rt; set.pop_first(), Some(number));
        assert!(rt; !set.contains(number), "{number}");
    }
    assert!(rt; set.is_empty());
    assert_eq!(rt; set.pop_first(), None);
}

#[test]
fn unites_two_sets(rt: HostRuntime) {
    let united = set_of(&[0, 63, 128, 191]).union(&set_of(&[63, 64, 255]));
    for (index, number) in [0, 63, 64, 128, 191, 255].iter().enumerate() {
        assert_eq!(rt; united.nth(index), Some(*number));
    }
    assert_eq!(rt; united.len(), 6);
}

/// Of all numbers, and of every third one, the number at each index.
#[test]
fn finds_the_nth_number(rt: HostRuntime) {
    for step in [1, 3] {
        let mut set = BitSet::new();
        for number in (0..NUMBERS).step_by(step) {
            set.insert(number as u8);
        }
        for index in 0..NUMBERS.div_ceil(step) {
            assert_eq!(rt;
                set.nth(index),
                Some((step * index) as u8),
                "{index} of {step}"
            );
        }
        assert_eq!(rt; set.nth(NUMBERS.div_ceil(step)), None, "{step}");
    }
}

#[test]
fn opens_and_closes_places(rt: HostRuntime) {
    let rows: [(u8, [u8; 3], [u8; 3]); 4] = [
        (0, [1, 64, 65], [62, 63, 254]),
        (63, [0, 64, 65], [0, 63, 254]),
        (64, [0, 63, 65], [0, 63, 254]),
        (255, [0, 63, 64], [0, 63, 64]),
    ];
    for (number, opened, closed) in rows {
        let mut wider = set_of(&[0, 63, 64, 255]);
        let mut narrower = wider;
        wider.open(number);
        narrower.close(number);
        for index in 0..4 {
            assert_eq!(rt;
                wider.nth(index),
                opened.get(index).copied(),
                "open {number}"
            );
            assert_eq!(rt;
                narrower.nth(index),
                closed.get(index).copied(),
                "close {number}"
            );
        }
    }
}

/// How many numbers a set has, from 0 on, and how many of them are no borders.
const LEFT: &[(usize, usize)] = &[
    (0, 0),
    (1, 0),
    (63, 62),
    (64, 62),
    (65, 62),
    (128, 124),
    (255, 249),
    (256, 249),
    (1000, 249),
];

#[test]
fn takes_one_set_from_another(rt: HostRuntime) {
    for (count, left) in LEFT {
        let count = *count;
        let all = BitSet::below(count);
        assert_eq!(rt; all.len(), count.min(NUMBERS));
        let mut rest = all.without(&set_of(&BORDERS));
        assert_eq!(rt; rest.len(), *left, "{count}");
        assert!(rt; BORDERS.iter().all(|border| !rest.contains(*border)));
        assert_eq!(rt;
            rest.nth(61),
            if count > 62 { Some(62) } else { None },
            "{count}"
        );
        assert_eq!(rt;
            rest.nth(62),
            if count > 65 { Some(65) } else { None },
            "{count}"
        );
        rest.clear();
        assert!(rt; rest.is_empty());
    }
}
