//! Streams that fail, and outputs that are written in blocks.
use crate::scripts::check;
use std::alloc::AllocError;

const WRITES: &str = "\
# A capture ends at the write that fails. The start is written first, and then the packets of \
    256 lines at a time: there are four writes.
lines 600
fail_write 1
capture journal = 4 0 [cannot write|]
fail_write 2
packets 0 = 4 yes [cannot write|]
fail_write 3
packets 256 = 4 yes [cannot write|]
fail_write 4
packets 512 = 4 yes [cannot write|]
fail_write 5
packets 600 = 0 yes []
# Where the error stream fails, the status stays, and what was written of the line before the \
    write that failed.
file turn 0 ++|turn|
fail_error 1
capture journal = 3 0 []
fail_error 2
capture journal = 3 0 [journal line ]
fail_error 3
capture journal = 3 0 [journal line 2]
# A chart ends at the write that fails. The rows of 256 lines are written, and those of the \
    other 44; then the end.
lines 300
fail_write 3
chart <text x=\"408\" y=\"6211\" class=\"note-a\">up 0405, 2 octets</text>| = 4 yes [cannot write|]
fail_write 4
chart <text x=\"408\" y=\"7267\" class=\"note-a\">up 0405, 2 octets</text>| = 4 yes [cannot write|]
fail_write 5
chart <path d=\"M860 66V7276\" class=\"life\"></path>|</svg>| = 0 yes []
";

#[test]
fn outputs_end_at_the_write_that_fails(rt: HostRuntime) -> Result<(), AllocError> {
    check(&rt, rt.alloc(), WRITES)
}
