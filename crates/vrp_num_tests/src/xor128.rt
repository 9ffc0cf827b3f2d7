//! Tests of random words.
use vrp_num::Xor128;

#[test]
fn first_words(rt: HostRuntime) {
    let mut published = Xor128::with_state(123_456_789, 362_436_069, 521_288_629, 88_675_123);
    assert_eq!(rt; published.next(), 3_701_687_786);
    let mut seeded = Xor128::seeded(1);
    for word in [0x8e41_5c27, 0x49b3_0577, 0x9059_5a31] {
        assert_eq!(rt; seeded.next(), word);
    }
}

#[test]
fn draws(rt: HostRuntime) {
    let mut generator = Xor128::seeded(1);
    assert_eq!(rt; generator.below(10), 3);
    assert_eq!(rt; generator.below(1000), 111);
    assert_eq!(rt; generator.next(), 2_421_774_897);
}
