//! The first words of PCG32 generators, as a program in another language gives them.
use lg_node::{Dice, PcgDice};

/// The first eight words of the generators of 42 and 1.
#[test]
fn first_words(rt: HostRuntime) {
    let rows = [
        (
            42,
            [
                3_400_036_912,
                3_349_765_444,
                515_166_382,
                4_224_707_908,
                1_556_152_254,
                2_777_144_205,
                3_631_167_442,
                1_399_683_183,
            ],
        ),
        (
            1,
            [
                866_585_574,
                2_109_535_214,
                3_403_630_417,
                296_513_984,
                4_177_522_235,
                689_909_480,
                3_719_081_784,
                441_867_712,
            ],
        ),
    ];
    for (number, want) in rows {
        assert_eq!(rt; PcgDice::new(number).words(), want, "of {number}");
    }
}
