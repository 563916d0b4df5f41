//! Instants worked out by hand.
use crate::scripts::check;
use instants::{calls_follow_indications, ends_agree, track_follows_indications};
use std::alloc::AllocError;

const INDICATIONS: &str = "\
# The number of events from one Instant to another, modulo 65536.
track gap 7 7 = 0
track gap 6 7 = 65535
track gap 0 65535 = 1
new
# A gap of 32767 or more has passed. In event 1, updates with the Instants 32767, 32768, 0 and 1.
# One that is not taken changes nothing, and one that is taken holds later.
track enter 1
track update 0 32767 = 1 yes
track free = no
track params = 24 0 72 37
new
track enter 1
track update 0 32768 = 1 no
track free = yes
track params = 24 0 72 37
new
track enter 1
track update 0 0 = 1 no
track free = yes
track params = 24 0 72 37
new
track enter 1
track update 0 1 = 1 yes
track free = no
track params = 24 0 72 37
new
# A late indication holds from the next event.
# The central sends an update in event 1 with the Instant 7. A peripheral takes it in event 7, and
# has the same anchors. One that hears it in event 8 does not take it.
track enter 1
track update 5 7 = 1 yes
track enter 5
track anchor = 175
track enter 1 = 1
track anchor = 223
track enter 1
track params = 48 0 100 37
new
track enter 7
track anchor = 170
track update 5 7 = 7 yes
track anchor = 223
track enter 1 = 1
track params = 48 0 100 37
new
track enter 8
track update 5 7 = 8 no
track anchor = 218
new
# A second indication holds from its own event.
# A map with the Instant 7, and after it an update that is first sent in event 8, with the Instant
# 14.
track enter 1
track map 7 = 1 yes
track enter 5
track params = 24 0 72 37
track enter 1 = 1
track params = 24 0 72 33
track update 0 14 = 8 yes
track enter 5
track anchor = 338
track enter 1 = 2
track params = 48 0 100 33
track anchor = 386
";

#[test]
fn indications(rt: HostRuntime) -> Result<(), AllocError> {
    check(&rt, rt.alloc(), INDICATIONS)?;
    calls_follow_indications();
    track_follows_indications();
    ends_agree();
    Ok(())
}
