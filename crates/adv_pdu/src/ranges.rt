//! The test of the fields of a CONNECT_IND.
ghost use Rattle.std.specs.Prelude.{◌≡◌, ◌↔◌, IsTrue};
ghost use Rattle.adv_pdu.specs.Ranges.{is_in_range, IsInRange};

use crate::ConnectFields;
use ble_base::ChannelMap;
use data_pdu::is_update;

impl ConnectFields {
    /// Whether a link may begin with these fields: the transmit window, the interval, the latency
    /// and the timeout are those that an update may set, the map has two data channels or more and
    /// no other bit, and the hop increment is 5 to 16 (Core 5.2, volume 6 part B, section 2.3.3.1).
    /// Access address, CRCInit and SCA may be any.
    pub fn is_in_range(&self) -> bool
        ensures test { result ≡ is_in_range self.now }
        ensures range { IsTrue result ↔ IsInRange self.now }
    {
        is_update(
            self.win_size,
            self.win_offset,
            self.interval,
            self.latency,
            self.timeout,
        ) && ChannelMap::new(self.map).is_some()
            && (5..=16).contains(&self.hop)
    }
}
