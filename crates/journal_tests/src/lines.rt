//! Tests of what no contract says: written-out lines.
use crate::scripts::check;
use journal::{a_line_has_one_entry, a_text_has_one_journal};
use std::alloc::AllocError;

const HOST_LINES: &str = "\
push plain both_on
push plain a_off
push plain one_side
push octets fed_a 01030c00
push octets up_b 040e0401030c00
write = [turn 0 ++|turn 578 -+|turn 0 +|in a 01030c00|up b 040e0401030c00|]
";

#[test]
fn writes_host_lines(rt: HostRuntime) -> Result<(), AllocError> {
    check(&rt, rt.alloc(), HOST_LINES)
}

const LINK_LINES: &str = "\
push plain opened
push plain shut
push octets sent 01020304
push octets took
push plain enter
push procedure applied
push procedure began
push procedure refused
push procedure done
write = [open a 1 0 central|shut a 1 3e|sent a 1 1 2 01020304|took a 1 1 3 -|enter a 1 1 20|\
    applied a 1 1 7|began a 1 map|refused a 1 map 2a|done a 1 map|]
";

#[test]
fn writes_link_lines(rt: HostRuntime) -> Result<(), AllocError> {
    check(&rt, rt.alloc(), LINK_LINES)
}

/// Packets, each of nine octets, by their places; and a line of a hundred octets.
const AIR_LINES: &str = "\
push packet passed d6be898e8cd2e3f08a
push packet lost d6be898e8cd2e3f08a
push packet damaged d6be898e8cd2e3f08a
get 0 = [air b 37 d6be898e8cd2e3f08a . good|]
get 1 = [air b 37 d6be898e8cd2e3f08a x missed|]
get 2 = [air b 37 d6be898e8cd2e3f08a e11:01c0b401 broken|]
push octets fed_b a5a5a5a5a5a5a5a5a5a5a5a5a5a5a5a5a5a5a5a5a5a5a5a5a5a5a5a5a5a5a5a5a5a5a5\
    a5a5a5a5a5a5a5a5a5a5a5a5a5a5a5a5a5a5a5a5a5a5a5a5a5a5a5a5a5a5a5a5a5a5a5a5a5a5a5a5\
    a5a5a5a5a5a5a5a5a5a5a5a5a5a5a5a5a5a5a5a5a5a5a5a5a5
get 3 = [in b a5a5a5a5a5a5a5a5a5a5a5a5a5a5a5a5a5a5a5a5a5a5a5a5a5a5a5a5a5a5a5a5a5a5a5\
    a5a5a5a5a5a5a5a5a5a5a5a5a5a5a5a5a5a5a5a5a5a5a5a5a5a5a5a5a5a5a5a5a5a5a5a5a5a5a5a5\
    a5a5a5a5a5a5a5a5a5a5a5a5a5a5a5a5a5a5a5a5a5a5a5a5a5|]
";

#[test]
fn writes_air_lines(rt: HostRuntime) -> Result<(), AllocError> {
    check(&rt, rt.alloc(), AIR_LINES)
}

const READ: &str = "\
read turn 578 -+| = [turn 578 -+|]
read turn 18446744073709551615 +| = [turn 18446744073709551615 +|]
read in a 01030c00| = [in a 01030c00|]
read up b 040e0401030c00| = [up b 040e0401030c00|]
read air b 37 d6be898e . good| = [air b 37 d6be898e . good|]
read air a 0 00 x missed| = [air a 0 00 x missed|]
read air b 39 d6 e11:01c0b401 broken| = [air b 39 d6 e11:01c0b401 broken|]
read open a 1 0 central| = [open a 1 0 central|]
read shut a 1 3e| = [shut a 1 3e|]
read sent a 1 1 2 01020304| = [sent a 1 1 2 01020304|]
read took b 1 2 3 -| = [took b 1 2 3 -|]
read enter a 1 65536 20| = [enter a 1 65536 20|]
read applied b 2 1 7| = [applied b 2 1 7|]
read began a 1 map| = [began a 1 map|]
read refused b 1 request 2a| = [refused b 1 request 2a|]
read done a 1 encrypt| = [done a 1 encrypt|]
";

#[test]
fn reads_each_kind_of_line(rt: HostRuntime) -> Result<(), AllocError> {
    check(&rt, rt.alloc(), READ)?;
    a_line_has_one_entry();
    a_text_has_one_journal();
    Ok(())
}

const NOT_READ: &str = "\
read = none
read | = none
read turn 578 -+ = none
read turn 578 -+|turn 579 -+| = none
read turn 0578 -+| = none
read turn 18446744073709551616 -+| = none
read turn 578  -+| = none
read turn 578 -+ | = none
read turn 578| = none
read in a 01030C00| = none
read in a 01030c0| = none
read in a | = none
read in c 00| = none
read air b 256 d6 . good| = none
read air b 37 d6 y good| = none
read air b 37 d6 e65536:00 good| = none
read shut a 1 e| = none
read finished a 1 map| = none
";

#[test]
fn reads_no_other_line(rt: HostRuntime) -> Result<(), AllocError> {
    check(&rt, rt.alloc(), NOT_READ)
}

const PLACES: &str = "\
push plain both_on
push procedure began
len = 2
get 1 = [began a 1 map|]
";

#[test]
fn a_journal_is_asked_by_place(rt: HostRuntime) -> Result<(), AllocError> {
    check(&rt, rt.alloc(), PLACES)
}
