use nv_room::Spot;

// One station: the words of its owner, head and cursor are 24. Eight lanes of two places of six words are 96, then come 12 chunks.
#[test]
fn words_of_an_event(rt: HostRuntime) {
    let spot = Spot {
        lane: 1,
        place: 1,
        first: 11,
    };
    assert_eq!(rt; spot.word(1, 2, 0), 42);
    assert_eq!(rt; spot.word(1, 2, 5), 47);
    assert_eq!(rt; spot.word(1, 2, 6), 824);
    assert_eq!(rt; spot.word(1, 2, 69), 887);
    assert_eq!(rt; spot.word(1, 2, 70), 120);
}
