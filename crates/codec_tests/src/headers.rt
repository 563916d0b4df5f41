//! Worked rows of the header of a data channel PDU.
use crate::scripts::check;
use std::alloc::AllocError;

const HEADERS: &str = "\
# The last one has reserved bits, which are ignored.
header 0100 = DataHeader { llid: 1, nesn: false, sn: false, md: false, length: 0 } empty
header 061b = DataHeader { llid: 2, nesn: true, sn: false, md: false, length: 27 }
header 0b01 = DataHeader { llid: 3, nesn: false, sn: true, md: false, length: 1 }
header 1efb = DataHeader { llid: 2, nesn: true, sn: true, md: true, length: 251 }
header 0f05 = DataHeader { llid: 3, nesn: true, sn: true, md: false, length: 5 }
header ef05 = DataHeader { llid: 3, nesn: true, sn: true, md: false, length: 5 } as 0f05
# A PDU with a reserved LLID or with no payload counts as
# empty.
header 0005 = DataHeader { llid: 0, nesn: false, sn: false, md: false, length: 5 } empty
header 0100 = DataHeader { llid: 1, nesn: false, sn: false, md: false, length: 0 } empty
header 0101 = DataHeader { llid: 1, nesn: false, sn: false, md: false, length: 1 }
header 0200 = DataHeader { llid: 2, nesn: false, sn: false, md: false, length: 0 } empty
header 021b = DataHeader { llid: 2, nesn: false, sn: false, md: false, length: 27 }
header 0300 = DataHeader { llid: 3, nesn: false, sn: false, md: false, length: 0 } empty
header 0301 = DataHeader { llid: 3, nesn: false, sn: false, md: false, length: 1 }
";

#[test]
fn headers(rt: HostRuntime) -> Result<(), AllocError> {
    check(&rt, rt.alloc(), HEADERS)
}
