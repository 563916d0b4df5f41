//! The layouts of control PDUs, each once: its reader, its writer and its length are made from
//! them.

/// Hands the layouts to another macro, after what else that takes. Each row has an opcode, a
/// variant and its fields by their kinds, in order (Core 5.2, volume 6 part B, section 2.4.2). The
/// rows with an opcode below 0F stand apart from the others.
/// `six` is an array of six numbers of two octets.
macro_rules! with_layouts {
    ($rows:ident $($argument:ident)*) => {
        $rows! {
            $($argument)*;
            low {
                0x00 ConnectionUpdateInd: u8 win_size, u16 win_offset, u16 interval, u16 latency,
                    u16 timeout, u16 instant;
                0x01 ChannelMapInd: u40 map, u16 instant;
                0x02 TerminateInd: u8 code;
                0x03 EncReq: u64 rand, u16 ediv, u64 skd_m, u32 iv_m;
                0x04 EncRsp: u64 skd_s, u32 iv_s;
                0x05 StartEncReq: ;
                0x06 StartEncRsp: ;
                0x07 UnknownRsp: u8 opcode;
                0x08 FeatureReq: u64 features;
                0x09 FeatureRsp: u64 features;
                0x0A PauseEncReq: ;
                0x0B PauseEncRsp: ;
                0x0C VersionInd: u8 version, u16 company, u16 sub;
                0x0D RejectInd: u8 code;
                0x0E PeripheralFeatureReq: u64 features;
            }
            high {
                0x0F ConnectionParamReq: u16 interval_min, u16 interval_max, u16 latency, u16 timeout,
                    u8 periodicity, u16 reference, six offsets;
                0x10 ConnectionParamRsp: u16 interval_min, u16 interval_max, u16 latency, u16 timeout,
                    u8 periodicity, u16 reference, six offsets;
                0x11 RejectExtInd: u8 opcode, u8 code;
                0x14 LengthReq: u16 max_rx_octets, u16 max_rx_time, u16 max_tx_octets, u16 max_tx_time;
                0x15 LengthRsp: u16 max_rx_octets, u16 max_rx_time, u16 max_tx_octets, u16 max_tx_time;
                0x16 PhyReq: u8 tx, u8 rx;
                0x17 PhyRsp: u8 tx, u8 rx;
                0x18 PhyUpdateInd: u8 to_peripheral, u8 to_central, u16 instant;
            }
        }
    };
}

pub(crate) use with_layouts;
