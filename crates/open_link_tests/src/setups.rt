//! What links are set up with.
use adv_pdu::ConnectFields;
use ble_base::{Address, Role};
use open_links::LinkSetup;

/// The address of each controller whose links are opened.
const OWN: u8 = 0x0A;

/// All channels.
const ALL: u64 = 0x1F_FFFF_FFFF;

/// Channels 9, 10, 21, 22, 23, 33, 34, 35 and 36.
const NINE: u64 = 0x1E_00E0_0600;

/// A public address by its last octet.
pub(crate) fn address(last: u8) -> Address {
    Address {
        random: false,
        octets: [last, 0, 0, 0xEE, 0xFF, 0xC0],
    }
}

/// A link with 30 ms from one event to the next and a supervision timeout of 720 ms.
fn fields(latency: u16) -> ConnectFields {
    ConnectFields {
        access: 0x7176_4129,
        crc_init: 1,
        win_size: 1,
        win_offset: 0,
        interval: 24,
        latency,
        timeout: 72,
        map: ALL,
        hop: 5,
        sca: 0,
    }
}

/// A link with the access address of the sample data of Core 5.2, volume 6 part C, section 3, and
/// a hop increment of 7.
fn sample_fields(on_nine: bool) -> ConnectFields {
    ConnectFields {
        access: 0x8E89_BED6,
        map: if on_nine { NINE } else { ALL },
        hop: 7,
        ..fields(0)
    }
}

/// What a central is set up with for link 0 by algorithm #2 or #1, on all channels or on nine.
pub(crate) fn sample_setup(two: bool, on_nine: bool) -> LinkSetup {
    LinkSetup {
        fields: sample_fields(on_nine),
        two,
        ..setup(Role::Central, 0, 1, 0)
    }
}

/// What an end is set up with, to the peer with this number.
pub(crate) fn setup(role: Role, handle: u16, peer: u8, latency: u16) -> LinkSetup {
    LinkSetup {
        role,
        handle,
        own: address(OWN),
        peer: address(peer),
        fields: fields(latency),
        two: true,
        max_rx: 251,
    }
}
