//! Lines that are not those of a journal: the first of them is named, and nothing is written.
use crate::scripts::check;
use std::alloc::AllocError;

const LINES: &str = "\
# Bad lines at the start, between others, at the end and without a newline; signs, octets and \
    numbers that no line has.
file turn +|turn 1 ++|
capture journal = 3 0 [journal line 1|]
file |turn 0 ++|
capture journal = 3 0 [journal line 1|]
file turn 0 ++|up c 0401|up a 04|
capture journal = 3 0 [journal line 2|]
file turn 0 ++||turn 1 ++|
capture journal = 3 0 [journal line 2|]
file turn 0 ++|up a 0401|up a 4|
capture journal = 3 0 [journal line 3|]
file turn 0 ++|turn 1 ++
capture journal = 3 0 [journal line 2|]
file turn 0 ++
capture journal = 3 0 [journal line 1|]
file turn 0 ++|up a 0401~0d|
capture journal = 3 0 [journal line 2|]
file turn 0 ++|up a 0401 |
capture journal = 3 0 [journal line 2|]
file turn 0 ++|up  a 0401|
capture journal = 3 0 [journal line 2|]
file turn 0 ++|up a 040G|
capture journal = 3 0 [journal line 2|]
file turn 0 ++|up a 040A|
capture journal = 3 0 [journal line 2|]
file turn 00 ++|
capture journal = 3 0 [journal line 1|]
file turn 18446744073709551616 ++|
capture journal = 3 0 [journal line 1|]
file turn 0 ++|air a 256 00 . good|
capture journal = 3 0 [journal line 2|]
file turn 0 ++|up a ~004|
capture journal = 3 0 [journal line 2|]
file turn 0 ++|up ~c3~a4 04|
capture journal = 3 0 [journal line 2|]
file turn 0 ++|up a 04~ff|
capture journal = 3 0 [journal line 2|]
file ~ef~bb~bfturn 0 ++|
capture journal = 3 0 [journal line 1|]
# A line of a million octets is one of a journal where it has an even number of digits. Its \
    capture has 132 octets of the start, 32 of a block, and 500,004 of the packet.
file up a~20
zeros 1000000
capture journal = 0 500168 []
file turn 0 ++|up a~20
zeros 1000001
capture journal = 3 0 [journal line 2|]
";

#[test]
fn the_first_bad_line_is_named(rt: HostRuntime) -> Result<(), AllocError> {
    check(&rt, rt.alloc(), LINES)
}
