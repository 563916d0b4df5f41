//! The fates of packets on the radio.
ghost use Rattle.std.specs.Prelude.{◌≡◌, ◌++◌, take, drop};
ghost use Rattle.radio_replay.specs.Damage.{damaged_packet, xor_of};

use arrayvec::ArrayVec;
use ble_base::AIR_PACKET_OCTETS;

/// What the radio does to a packet (our choice).
#[derive(Debug, PartialEq, Eq, Drop)]
pub enum Fate {
    /// The packet passes unchanged.
    Pass,
    /// The packet is lost.
    Lost,
    /// The pattern is xored into the octets of the packet from place `at` on. Place 0 is the first
    /// octet of the access address. In a schedule the place is 0 to 263, and the pattern has 1 to
    /// 264 octets.
    Damage {
        at: u16,
        pattern: ArrayVec<u8, AIR_PACKET_OCTETS>,
    },
}

/// Xors a pattern into the octets from a place on.
fn xor_into(octets: &mut [u8], at: u16, pattern: &[u8])
    ensures { octets.new ≡ take at octets.old ++ xor_of pattern.now (drop at octets.old) }
{
    let first = usize::from(at);
    for (place, octet) in pattern.iter().enumerate() {
        if first + place < octets.len() {
            octets[first + place] ^= *octet;
        }
    }
}

impl Fate {
    /// Damages the octets of a packet, in place. The part of a pattern past the end of the packet
    /// has no effect, and the other fates change nothing.
    pub fn damage_packet(&self, packet: &mut [u8])
        ensures { packet.new ≡ damaged_packet self.now packet.old }
    {
        if let Fate::Damage { at, pattern } = self {
            xor_into(packet, *at, pattern.as_slice());
        }
    }
}
