//! The draws of two seeds, made by another program.
use rand_core::SeedableRng;
use rand_core::utils::NextWord;
use rand_pcg::Lcg64Xsh32;

#[test]
fn draws(rt: HostRuntime) {
    for (seed, words) in [
        (
            1,
            [
                866585574, 2109535214, 3403630417, 296513984, 4177522235, 689909480, 3719081784,
                441867712,
            ],
        ),
        (
            0,
            [
                298703107, 4236525527, 336081875, 1056616254, 1060453275, 1616833669, 501767310,
                2864049166,
            ],
        ),
    ] {
        let mut generator = Lcg64Xsh32::seed_from_u64(seed);
        for word in words {
            assert_eq!(rt; generator.next_word(), word);
        }
    }
}
