//! Statuses that the words and the file have.
use crate::scripts::check;
use std::alloc::AllocError;

const STATUSES: &str = "\
# Words that are not one word, a file that is missing, and a read that fails.
file turn 0 ++|
capture = 1 0 [usage: ble_capture JOURNAL|]
capture journal journal = 1 0 [usage: ble_capture JOURNAL|]
capture journal --help extra = 1 0 [usage: ble_capture JOURNAL|]
capture journals = 2 0 [cannot read journals|]
fail_read 1
capture journal = 2 0 [cannot read journal|]
# An empty journal has a capture without a packet.
file
packets 0 = 0 yes []
# A file over its limit, and no memory for a file.
refuse long = 7 0 [too long: journal|]
refuse memory = 5 0 [no memory|]
";

#[test]
fn words_and_files_have_statuses(rt: HostRuntime) -> Result<(), AllocError> {
    check(&rt, rt.alloc(), STATUSES)
}
