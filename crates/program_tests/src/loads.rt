//! Loads of numbers, from the words to the line.
use crate::scripts::check;
use std::alloc::AllocError;

const LOADS: &str = "\
# All data arrives, whichever packets are lost, and each call leaves the same.
make 7 = 0 [make 7 turns 5281 links 1 a 2712 b 2712|] []
make 7 = 0 [make 7 turns 5281 links 1 a 2712 b 2712|] []
make 0 = 0 [make 0 turns 5281 links 1 a 2712 b 2712|] []
make 4294967295 = 0 [make 4294967295 turns 5281 links 1 a 2712 b 2712|] []
# Words that are not a number of a load.
make 4294967296 = 1 [] [usage: ble pair A B SCHEDULE, ble make NUMBER, ble solo HOST AIR|]
make 007 = 1 [] [usage: ble pair A B SCHEDULE, ble make NUMBER, ble solo HOST AIR|]
make +7 = 1 [] [usage: ble pair A B SCHEDULE, ble make NUMBER, ble solo HOST AIR|]
make 7a = 1 [] [usage: ble pair A B SCHEDULE, ble make NUMBER, ble solo HOST AIR|]
make = 1 [] [usage: ble pair A B SCHEDULE, ble make NUMBER, ble solo HOST AIR|]
make 7 7 = 1 [] [usage: ble pair A B SCHEDULE, ble make NUMBER, ble solo HOST AIR|]
# An output that fails. No file is read.
fail_write 1
make 7 = 4 [] [cannot write|]
fail_write 0
fail_read 1
make 7 = 0 [make 7 turns 5281 links 1 a 2712 b 2712|] []
";

#[test]
fn loads_of_numbers(rt: HostRuntime) -> Result<(), AllocError> {
    check(&rt, rt.alloc(), LOADS)
}
