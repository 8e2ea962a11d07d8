//! Values that others published.

use crate::Generator;
use std::process::Abort;
use std::test::Fail;

/// The first draws of two seeds: those of seed 0 as the generator's authors' code gives them, those of seed 1234567 as
/// the task "Pseudo-random numbers/Splitmix64" of Rosetta Code lists them.
#[test]
fn first_draws_of_two_seeds(rt: HostRuntime) -> Result<(), Fail> {
    for (seed, draws) in [
        (
            0u64,
            [
                0xe220_a839_7b1d_cdafu64,
                0x6e78_9e6a_a1b9_65f4,
                0x06c4_5d18_8009_454f,
                0xf88b_b8a8_724c_81ec,
                0x1b39_896a_51a8_749b,
            ],
        ),
        (
            1_234_567,
            [
                6_457_827_717_110_365_317,
                3_203_168_211_198_807_973,
                9_817_491_932_198_370_423,
                4_593_380_528_125_082_431,
                16_408_922_859_458_223_821,
            ],
        ),
    ] {
        let mut generator = Generator::new(seed);
        for draw in draws {
            assert_eq!(rt; generator.next_u64(), draw);
        }
    }
    Ok(())
}

#[test]
fn bytes_have_the_high_byte_first(rt: HostRuntime) -> Result<(), Fail> {
    let mut bytes = [0u8; 19];
    Generator::new(0).fill(&mut bytes);
    let expected = [
        0xe2u8, 0x20, 0xa8, 0x39, 0x7b, 0x1d, 0xcd, 0xaf, 0x6e, 0x78, 0x9e, 0x6a, 0xa1, 0xb9, 0x65,
        0xf4, 0x06, 0xc4, 0x5d,
    ];
    assert!(rt; bytes == expected);
    Ok(())
}
