//! The table of events, one row each, from which they are read, written and masked.

/// Gives the rows to the macro `$then`, after what is given to it: the events with a code and a bit of
/// the event mask, the events with a code that no bit masks, and the LE meta events with a subevent
/// code and a bit of the LE event mask: those with a subevent code below 07, and the others. The
/// fields of a row are in the order of the packet.
macro_rules! event_rows {
    ($then:ident $($given:ident)*) => {
        $then! {
            $($given)*;
            masked {
                DisconnectionComplete 0x05 4: u8 status, u16 handle, u8 reason;
                EncryptionChange 0x08 7: u8 status, u16 handle, u8 enabled;
                RemoteVersion 0x0C 11: u8 status, u16 handle, u8 version, u16 company, u16 sub;
                HardwareError 0x10 15: u8 code;
                BufferOverflow 0x1A 25: u8 link_kind;
                KeyRefresh 0x30 47: u8 status, u16 handle;
            }
            unmasked {
                CommandStatus 0x0F: u8 status, u8 number, u16 opcode;
            }
            low {
                ConnectionComplete 0x01 0: u8 status, u16 handle, u8 role, u8 peer_kind, [6] peer,
                    u16 interval, u16 latency, u16 timeout, u8 accuracy;
                UpdateComplete 0x03 2: u8 status, u16 handle, u16 interval, u16 latency, u16 timeout;
                RemoteFeatures 0x04 3: u8 status, u16 handle, u64 features;
                KeyRequest 0x05 4: u16 handle, u64 rand, u16 ediv;
                ParamRequest 0x06 5: u16 handle, u16 min, u16 max, u16 latency, u16 timeout;
            }
            high {
                LengthChange 0x07 6: u16 handle, u16 tx_octets, u16 tx_time,
                    u16 rx_octets, u16 rx_time;
                EnhancedConnection 0x0A 9: u8 status, u16 handle, u8 role, u8 peer_kind, [6] peer,
                    [6] local_private, [6] peer_private,
                    u16 interval, u16 latency, u16 timeout, u8 accuracy;
                PhyComplete 0x0C 11: u8 status, u16 handle, u8 tx, u8 rx;
                ChannelSelection 0x14 19: u16 handle, u8 algorithm;
            }
        }
    };
}

pub(crate) use event_rows;
