//! Commands of a wrong length.
use crate::scripts::check;
use std::alloc::AllocError;

const LENGTHS: &str = "\
# The commands with parameters that start something, each with none.
turns t ++ a4|
a 01060400
pair a.bin b.bin schedule = 0 [turn 0 ++|in a 01060400|up a 040f0412010604|] []
a 011d0400
pair a.bin b.bin schedule = 0 [turn 0 ++|in a 011d0400|up a 040f0412011d04|] []
a 010d2000
pair a.bin b.bin schedule = 0 [turn 0 ++|in a 010d2000|up a 040f0412010d20|] []
a 01132000
pair a.bin b.bin schedule = 0 [turn 0 ++|in a 01132000|up a 040f0412011320|] []
a 01162000
pair a.bin b.bin schedule = 0 [turn 0 ++|in a 01162000|up a 040f0412011620|] []
a 01192000
pair a.bin b.bin schedule = 0 [turn 0 ++|in a 01192000|up a 040f0412011920|] []
a 01322000
pair a.bin b.bin schedule = 0 [turn 0 ++|in a 01322000|up a 040f0412013220|] []
# The other commands with parameters, each with none.
turns t ++ a4|
a 01010c00
pair a.bin b.bin schedule = 0 [turn 0 ++|in a 01010c00|up a 040e0401010c12|] []
a 01310c00
pair a.bin b.bin schedule = 0 [turn 0 ++|in a 01310c00|up a 040e0401310c12|] []
a 01330c00
pair a.bin b.bin schedule = 0 [turn 0 ++|in a 01330c00|up a 040e0401330c12|] []
a 01350c00
pair a.bin b.bin schedule = 0 [turn 0 ++|in a 01350c00|up a 040e0401350c12|] []
a 01012000
pair a.bin b.bin schedule = 0 [turn 0 ++|in a 01012000|up a 040e0401012012|] []
a 01052000
pair a.bin b.bin schedule = 0 [turn 0 ++|in a 01052000|up a 040e0401052012|] []
a 01062000
pair a.bin b.bin schedule = 0 [turn 0 ++|in a 01062000|up a 040e0401062012|] []
a 01082000
pair a.bin b.bin schedule = 0 [turn 0 ++|in a 01082000|up a 040e0401082012|] []
a 01092000
pair a.bin b.bin schedule = 0 [turn 0 ++|in a 01092000|up a 040e0401092012|] []
a 010a2000
pair a.bin b.bin schedule = 0 [turn 0 ++|in a 010a2000|up a 040e04010a2012|] []
a 010b2000
pair a.bin b.bin schedule = 0 [turn 0 ++|in a 010b2000|up a 040e04010b2012|] []
a 010c2000
pair a.bin b.bin schedule = 0 [turn 0 ++|in a 010c2000|up a 040e04010c2012|] []
a 01112000
pair a.bin b.bin schedule = 0 [turn 0 ++|in a 01112000|up a 040e0401112012|] []
a 01122000
pair a.bin b.bin schedule = 0 [turn 0 ++|in a 01122000|up a 040e0401122012|] []
a 01142000
pair a.bin b.bin schedule = 0 [turn 0 ++|in a 01142000|up a 040e0401142012|] []
a 01152000
pair a.bin b.bin schedule = 0 [turn 0 ++|in a 01152000|up a 040e0401152012|] []
a 01172000
pair a.bin b.bin schedule = 0 [turn 0 ++|in a 01172000|up a 040e0401172012|] []
a 011a2000
pair a.bin b.bin schedule = 0 [turn 0 ++|in a 011a2000|up a 040e04011a2012|] []
a 011b2000
pair a.bin b.bin schedule = 0 [turn 0 ++|in a 011b2000|up a 040e04011b2012|] []
a 01202000
pair a.bin b.bin schedule = 0 [turn 0 ++|in a 01202000|up a 040e0401202012|] []
a 01212000
pair a.bin b.bin schedule = 0 [turn 0 ++|in a 01212000|up a 040e0401212012|] []
a 01222000
pair a.bin b.bin schedule = 0 [turn 0 ++|in a 01222000|up a 040e0401222012|] []
a 01302000
pair a.bin b.bin schedule = 0 [turn 0 ++|in a 01302000|up a 040e0401302012|] []
";

#[test]
fn a_wrong_length_of_a_command(rt: HostRuntime) -> Result<(), AllocError> {
    check(&rt, rt.alloc(), LENGTHS)
}
