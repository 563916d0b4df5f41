//! Loads of some numbers, against the length and the sum of what a second program makes of them.
use radio_replay::make_load;
use std::alloc::AllocError;

/// A sum in which the place of each octet counts.
fn sum_of(octets: &[u8]) -> u32 {
    let mut sum: u32 = 0;
    for octet in octets {
        sum = sum.wrapping_mul(31).wrapping_add(u32::from(*octet));
    }
    sum
}

/// The length of some octets, and their sum.
fn shape_of(octets: &[u8]) -> (usize, u32) {
    (octets.len(), sum_of(octets))
}

#[test]
fn loads_of_numbers(rt: HostRuntime) -> Result<(), AllocError> {
    let rows = [
        (0, 3_834_092_492, 3_339_303_297, (5543, 2_068_241_950)),
        (7, 68_899_363, 2_404_332_922, (5541, 4_253_305_014)),
        (
            u32::MAX,
            1_809_839_537,
            2_609_553_635,
            (5543, 2_068_241_950),
        ),
    ];
    for (number, a, b, schedule) in rows {
        let load = make_load(rt.alloc(), number)?;
        assert_eq!(rt; shape_of(load.a.as_slice()), (3741, a), "{number}");
        assert_eq!(rt; shape_of(load.b.as_slice()), (3717, b), "{number}");
        assert_eq!(rt; shape_of(load.schedule.as_slice()), schedule, "{number}");
    }
    Ok(())
}
