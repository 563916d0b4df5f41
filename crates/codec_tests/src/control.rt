//! Control PDUs against octets by hand from their layouts (Core 5.2, volume 6 part B, section
//! 2.4.2; those of encryption are the sample data of volume 6 part C, section 1).
use crate::scripts::check;
use std::alloc::AllocError;

const CONTROL: &str = "\
# A control PDU of each kind.
control 0001020103020400050c0706 = Known(ConnectionUpdateInd { win_size: 1, win_offset: 0x0102, \
    interval: 0x0203, latency: 0x0004, timeout: 0x0c05, instant: 0x0607 })
control 0115141302111716 = Known(ChannelMapInd { map: 0x1102131415, instant: 0x1617 })
control 039078563412efcdab74241302f1e0dfcebdac24abdcba = Known(EncReq { rand: 0xabcdef1234567890, \
    ediv: 0x2474, skd_m: 0xacbdcedfe0f10213, iv_m: 0xbadcab24 })
control 047968574635241302bebaafde = Known(EncRsp { skd_s: 0x0213243546576879, iv_s: 0xdeafbabe })
control 080807060504030201 = Known(FeatureReq { features: 0x0102030405060708 })
control 091817161514131211 = Known(FeatureRsp { features: 0x1112131415161718 })
control 0c0b02010403 = Known(VersionInd { version: 0x0b, company: 0x0102, sub: 0x0304 })
control 0e2827262524232221 = Known(PeripheralFeatureReq { features: 0x2122232425262728 })
control 14fb0048081b004801 = Known(LengthReq { max_rx_octets: 0x00fb, max_rx_time: 0x0848, \
    max_tx_octets: 0x001b, max_tx_time: 0x0148 })
control 150201040306050807 = Known(LengthRsp { max_rx_octets: 0x0102, max_rx_time: 0x0304, \
    max_tx_octets: 0x0506, max_tx_time: 0x0708 })
control 1800000201 = Known(PhyUpdateInd { to_peripheral: 0, to_central: 0, instant: 0x0102 })
control 0213 = Known(TerminateInd { code: 0x13 })
control 05 = Known(StartEncReq)
control 06 = Known(StartEncRsp)
control 071c = Known(UnknownRsp { opcode: 0x1c })
control 0a = Known(PauseEncReq)
control 0b = Known(PauseEncRsp)
control 0d1a = Known(RejectInd { code: 0x1a })
control 110f3b = Known(RejectExtInd { opcode: 0x0f, code: 0x3b })
control 160102 = Known(PhyReq { tx: 1, rx: 2 })
control 170301 = Known(PhyRsp { tx: 3, rx: 1 })
control 0f0201040306050807090b0a0d0c0f0e1110131215141716 = Known(ConnectionParamReq { \
    interval_min: 0x0102, interval_max: 0x0304, latency: 0x0506, timeout: 0x0708, \
    periodicity: 0x09, reference: 0x0a0b, offsets: [0x0c0d, 0x0e0f, 0x1011, 0x1213, 0x1415, \
    0x1617] })
control 103231343336353837393b3a3d3c3f3e4140434245444746 = Known(ConnectionParamRsp { \
    interval_min: 0x3132, interval_max: 0x3334, latency: 0x3536, timeout: 0x3738, \
    periodicity: 0x39, reference: 0x3a3b, offsets: [0x3c3d, 0x3e3f, 0x4041, 0x4243, 0x4445, \
    0x4647] })
# Fields at the edges of their ranges.
control 00010600060000000a000000 = Known(ConnectionUpdateInd { win_size: 1, win_offset: 6, \
    interval: 6, latency: 0, timeout: 10, instant: 0 })
control 00010000800c0000800c0000 = Known(ConnectionUpdateInd { win_size: 1, win_offset: 0, \
    interval: 3200, latency: 0, timeout: 3200, instant: 0 })
control 000100000600f301ef020000 = Known(ConnectionUpdateInd { win_size: 1, win_offset: 0, \
    interval: 6, latency: 499, timeout: 751, instant: 0 })
control 0103000000000000 = Known(ChannelMapInd { map: 0x0000000003, instant: 0 })
control 01ffffffff1f0000 = Known(ChannelMapInd { map: 0x1fffffffff, instant: 0 })
control 141b0048011b004801 = Known(LengthReq { max_rx_octets: 27, max_rx_time: 328, \
    max_tx_octets: 27, max_tx_time: 328 })
control 151b0048011b004801 = Known(LengthRsp { max_rx_octets: 27, max_rx_time: 328, \
    max_tx_octets: 27, max_tx_time: 328 })
control 1800000000 = Known(PhyUpdateInd { to_peripheral: 0, to_central: 0, instant: 0 })
# Fields outside their ranges. An update has its window, offset,
# interval, latency, timeout and Instant in this order.
# The window is 0 or 2, the offset is past the interval.
control 00000600060000000a000000 = Unknown(0x00)
control 00020600060000000a000000 = Unknown(0x00)
control 00010700060000000a000000 = Unknown(0x00)
# The interval is 5 or 3201, the latency 500.
control 00010000050000000a000000 = Unknown(0x00)
control 00010000810c0000800c0000 = Unknown(0x00)
control 000100000600f401800c0000 = Unknown(0x00)
# The timeout is 9 or 3201, or as long as two intervals with the latency between them.
control 000106000600000009000000 = Unknown(0x00)
control 00010000800c0000810c0000 = Unknown(0x00)
control 000100000600f301ee020000 = Unknown(0x00)
# A map has one channel or none, or bit 37.
control 0101000000000000 = Unknown(0x01)
control 0100000000000000 = Unknown(0x01)
control 01ffffffff3f0000 = Unknown(0x01)
# A length is one too small.
control 141a0048011b004801 = Unknown(0x14)
control 141b0047011b004801 = Unknown(0x14)
control 141b0048011a004801 = Unknown(0x14)
control 141b0048011b004701 = Unknown(0x14)
control 151a0048011b004801 = Unknown(0x15)
# A PHY changes.
control 1801000000 = Unknown(0x18)
control 1800010000 = Unknown(0x18)
# No octet, and octets that are no control PDU.
control = Bare
control 12 = Unknown(0x12)
control 13 = Unknown(0x13)
control 190000 = Unknown(0x19)
control ff = Unknown(0xff)
control 141a0048011b004801 = Unknown(0x14)
# An octet too few, and one too many.
control 02 = Unknown(0x02)
control 021300 = Unknown(0x02)
control 0500 = Unknown(0x05)
control 18000000 = Unknown(0x18)
";

#[test]
fn control_pdus(rt: HostRuntime) -> Result<(), AllocError> {
    check(&rt, rt.alloc(), CONTROL)
}
