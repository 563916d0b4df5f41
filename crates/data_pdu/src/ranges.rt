//! Tests of the ranges of the fields of control PDUs.
ghost use Rattle.std.specs.Prelude.{◌≡◌, ◌+◌, ◌*◌, ◌<◌, ◌≤◌, ◌↔◌, IsTrue};
ghost use Rattle.data_pdu.specs.Ranges.{is_update, is_map, is_length, is_phy_update, is_in_range};
ghost use Rattle.data_pdu.specs.Ranges.{IsInRange, IsUpdate};

use crate::ctrl::Ctrl;
use ble_base::ChannelMap;

impl Ctrl {
    /// Whether the fields are in their ranges. Only LL_CONNECTION_UPDATE_IND, LL_CHANNEL_MAP_IND,
    /// LL_LENGTH_REQ, LL_LENGTH_RSP and LL_PHY_UPDATE_IND have ranges (Core 5.2, volume 6 part B,
    /// section 2.4.2). `read_ctrl` gives no other control PDUs.
    pub fn is_in_range(&self) -> bool
        ensures test { result ≡ is_in_range self.now }
        ensures range { IsTrue result ↔ IsInRange self.now }
    {
        match *self {
            Ctrl::ConnectionUpdateInd {
                win_size,
                win_offset,
                interval,
                latency,
                timeout,
                ..
            } => is_update(win_size, win_offset, interval, latency, timeout),
            Ctrl::ChannelMapInd { map, .. } => ChannelMap::new(map).is_some(),
            Ctrl::LengthReq {
                max_rx_octets,
                max_rx_time,
                max_tx_octets,
                max_tx_time,
            }
            | Ctrl::LengthRsp {
                max_rx_octets,
                max_rx_time,
                max_tx_octets,
                max_tx_time,
            } => is_length(max_rx_octets, max_rx_time, max_tx_octets, max_tx_time),
            Ctrl::PhyUpdateInd {
                to_peripheral,
                to_central,
                ..
            } => to_peripheral == 0 && to_central == 0,
            _ => true,
        }
    }
}

/// Whether a connection may have these parameters and this transmit window, from its CONNECT_IND on
/// or after an update. Interval, WinSize and WinOffset are in units of 1.25 ms, the timeout is in
/// units of 10 ms (Core 5.2, volume 6 part B, sections 2.3.3.1 and 4.5.1 to 4.5.3).
#[tactic(auto, using(crate::proofs::RangeTests::update_is_tested))]
pub fn is_update(win_size: u8, win_offset: u16, interval: u16, latency: u16, timeout: u16) -> bool
    ensures test { result ≡ is_update win_size win_offset interval latency timeout }
    ensures range { IsTrue result ↔ IsUpdate win_size win_offset interval latency timeout }
{
    has_update_ranges(win_size, win_offset, interval, latency, timeout)
}

/// The test of `is_update`.
fn has_update_ranges(
    win_size: u8,
    win_offset: u16,
    interval: u16,
    latency: u16,
    timeout: u16,
) -> bool
    ensures { result ≡ is_update win_size win_offset interval latency timeout }
{
    win_size == 1
        && win_offset <= interval
        && (6..=3200).contains(&interval)
        && latency <= 499
        && (10..=3200).contains(&timeout)
        && outlasts(timeout, interval, latency)
}

/// Whether the timeout is longer than two intervals with the latency between them.
fn outlasts(timeout: u16, interval: u16, latency: u16) -> bool
    requires { latency ≤ 499 }
    ensures { IsTrue result ↔ ((1 + latency) * interval < timeout * 4) }
{
    u32::from(timeout) * 4 > (1 + u32::from(latency)) * u32::from(interval)
}

/// Whether these are lengths in octets and in microseconds that a link may have.
fn is_length(rx_octets: u16, rx_time: u16, tx_octets: u16, tx_time: u16) -> bool
    ensures { result ≡ is_length rx_octets rx_time tx_octets tx_time }
{
    27 <= rx_octets && 328 <= rx_time && 27 <= tx_octets && 328 <= tx_time
}
