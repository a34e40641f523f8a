//! Random streams. The words of xoshiro256++ are those of its reference code; the others were worked out
//! from the formulas by another program.

use jt_rng::{EmptyRange, TaskRng};

const START: [u64; 5] = [1, 2, 3, 4, 0];

#[test]
fn a_stream_draws_its_words(rt: HostRuntime) {
    let mut rng = TaskRng::from_words(START);
    for word in [
        41943041,
        58720359,
        3588806011781223,
        3591011842654386,
        9228616714210784205,
        9973669472204895162,
        14011001112246962877,
        12406186145184390807,
        15849039046786891736,
        10450023813501588000,
    ] {
        assert_eq!(rt; rng.draw(), word);
    }
    assert_eq!(rt;
        TaskRng::from_words([0, 0, 0, 0, 7]).words(),
        [1, 0, 0, 0, 7]
    );
}

#[test]
fn streams_fork_and_go_on(rt: HostRuntime) {
    let mut parent = TaskRng::from_words(START);
    let mut child = parent.fork();
    assert_eq!(rt; parent.words(), [1, 2, 3, 4, 1]);
    assert_eq!(rt;
        child.words(),
        [
            400053721905147028,
            7419159123334088134,
            8523320432977287591,
            8232843362355844771,
            1
        ]
    );
    assert_eq!(rt;
        parent.fork().words(),
        [
            14244699899833562631,
            12143191928956745192,
            3486751055420352598,
            158812294007487997,
            15074714826142052246
        ]
    );
    assert_eq!(rt; parent.draw(), 41943041);
    assert_eq!(rt; child.draw(), 1867366152292176815);
    assert_eq!(rt; child.draw(), 8864259234630390792);
    assert_eq!(rt;
        child.fork().words(),
        [
            14867699691048429015,
            13752710423803108828,
            6666173566721212436,
            9997853898325875811,
            15074714826142052246
        ]
    );
}

#[test]
fn ranges_take_a_word_each(rt: HostRuntime) {
    let mut rng = TaskRng::from_words(START);
    for (a, b, number) in [
        (i64::MIN, i64::MAX, -9223372036812832767),
        (1, 10, 10),
        (0, 0, 0),
        (-1, i64::MAX, 3591011842654385),
        (i64::MIN, -1, -9218127359498767411),
        (-5, 5, -3),
        (i64::MAX, i64::MAX, i64::MAX),
        (i64::MIN, i64::MIN + 1, i64::MIN + 1),
        (-100, 100, -32),
        (1, 6, 1),
    ] {
        if a < b {
            assert_eq!(rt; rng.in_range(b, a), Err(EmptyRange), "{b}:{a}");
        }
        assert_eq!(rt; rng.in_range(a, b), Ok(number), "{a}:{b}");
    }
    let words = rng.words();
    assert_eq!(rt; rng.in_range(5, 4), Err(EmptyRange));
    assert_eq!(rt; rng.words(), words);
}
