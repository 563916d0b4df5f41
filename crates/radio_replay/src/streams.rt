//! The streams of the two hosts of a load.
ghost use Rattle.std.specs.Prelude.{◌≡◌, ◌++◌, OnOk, IfOk};
ghost use Rattle.radio_replay.specs.LoadStreams.{data_packet, load_packets, packets_before};
ghost use Rattle.radio_replay.specs.LoadStreams.{size_of, sizes_before};
ghost use Rattle.radio_replay.specs.RandomOctets.{octets_from, state_after};

use crate::draws::put_drawn;
use journal::Octets;
use std::alloc::{AllocError, Global};

/// How many packets of data each host has.
pub(crate) const PACKETS: u32 = 200;

/// How many octets a packet has, by its place.
pub(crate) fn size_of(place: u32) -> u16
    ensures { result ≡ size_of place }
{
    1 + (place % 27) as u16
}

/// Adds the packet at a place, with octets that are drawn.
fn put_packet(octets: &mut Vec<u8>, state: &mut u32, place: u32) -> Result<(), AllocError>
    ensures octets { OnOk result (octets.new.items ≡ octets.old.items
        ++ data_packet (size_of place) (octets_from state.old (size_of place))) }
    ensures state { OnOk result (state.new ≡ state_after state.old (size_of place)) }
{
    let size = size_of(place);
    octets.extend_from_slice(&[0x02, 0x00, 0x00])?;
    octets.extend_from_slice(&size.to_le_bytes())?;
    put_drawn(octets, state, size)
}

/// Adds all packets.
fn put_packets(octets: &mut Vec<u8>, state: &mut u32) -> Result<(), AllocError>
    ensures octets { OnOk result
        (octets.new.items ≡ octets.old.items ++ packets_before state.old load_packets) }
    ensures state { OnOk result (state.new ≡ state_after state.old (sizes_before load_packets)) }
{
    for place in 0..PACKETS {
        put_packet(octets, state, place)?;
    }
    Ok(())
}

/// The stream of a host: a command, and then its packets.
pub(crate) fn make_stream(
    alloc: Global,
    command: &[u8],
    state: &mut u32,
) -> Result<Octets, AllocError>
    ensures stream { IfOk result
        (λ stream. stream ≡ command.now ++ packets_before state.old load_packets) }
    ensures state { OnOk result (state.new ≡ state_after state.old (sizes_before load_packets)) }
{
    let mut octets = Vec::from_slice(alloc, command)?;
    put_packets(&mut octets, state)?;
    Ok(Octets::from(octets))
}
