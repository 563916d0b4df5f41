//! Files in memory and of the system, as they are called.
use crate::scripts::check;
use std::alloc::AllocError;

/// Three contents under two names; the fourth read fails.
const HELD: &str = "\
hold a one
hold b seven
hold a three
fail_read 4
read a 5 = [three]
read a 4 = TooLong
read c 9 = Failed
read b 9 = Failed
read b 9 = [seven]
";

#[test]
fn files_in_memory(rt: HostRuntime) -> Result<(), AllocError> {
    check(&rt, &rt, HELD)
}

/// Files that each Linux has, one by a name of over 200 octets, one without an end, a directory and a
/// name that is missing. In a text "|" ends a line.
const OF_THE_SYSTEM: &str = "\
system /proc/sys/kernel/ostype 6 = [Linux|]
system /proc/sys/kernel/ostype 5 = TooLong
system /dev/null 5 = []
system /proc/sys/./././././././././././././././././././././././././././././././././././\
    ././././././././././././././././././././././././././././././././././././././././\
    ./././././././././././././././kernel/ostype 6 = [Linux|]
system /dev/zero 300000 = TooLong
system outside-test.txt 5 = Failed
system . 5 = Failed
";

#[test]
fn files_of_the_system(rt: HostRuntime) -> Result<(), AllocError> {
    check(&rt, &rt, OF_THE_SYSTEM)
}
