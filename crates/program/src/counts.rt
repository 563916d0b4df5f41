//! What the journal of a run says in numbers, as its lines are read.
ghost use Rattle.std.specs.Prelude.{◌≡◌, ◌<◌, ◌^◌};
ghost use Rattle.program.specs.Counts.{data_octets, last_opened, octets_for, octets_in, octets_up};
ghost use Rattle.program.specs.Counts.{opened_in};

use ble_base::Side;
use journal::{Entry, Journal};

/// The number of the link that a line opens, and 0 for any other line.
fn opened_in(entry: &Entry) -> u64
    ensures { result ≡ opened_in entry.now }
{
    match entry {
        Entry::Opened { link, .. } => *link,
        _ => 0,
    }
}

/// The highest number of a link that is opened.
fn last_opened(entries: &[Entry]) -> u64
    ensures { result ≡ last_opened entries.now }
{
    let mut last = 0;
    for entry in entries {
        last = last.max(opened_in(entry));
    }
    last
}

/// How many octets of data a packet to a host has.
fn data_octets(packet: &[u8]) -> usize
    ensures value { result ≡ data_octets packet.now }
    ensures limit { result < 2 ^ 63 }
{
    match packet {
        [0x02, ..] => packet.len().saturating_sub(5),
        _ => 0,
    }
}

/// How many octets of data a packet to the host of `other` has for the host of a side.
fn octets_for(side: Side, other: Side, packet: &[u8]) -> usize
    ensures value { result ≡ octets_for side other packet.now }
    ensures limit { result < 2 ^ 63 }
{
    match (side, other) {
        (Side::A, Side::A) | (Side::B, Side::B) => data_octets(packet),
        _ => 0,
    }
}

/// How many octets of data a line gives to the host of a side.
fn octets_in(entry: &Entry, side: Side) -> usize
    ensures value { result ≡ octets_in side entry.now }
    ensures limit { result < 2 ^ 63 }
{
    match entry {
        Entry::Up {
            side: other,
            octets,
        } => octets_for(side, *other, octets.as_slice()),
        _ => 0,
    }
}

/// How many octets of data these lines give to the host of a side.
fn octets_up(entries: &[Entry], side: Side) -> u128
    ensures { result ≡ octets_up side entries.now }
{
    let mut sum: u128 = 0;
    for entry in entries {
        sum += octets_in(entry, side) as u128;
    }
    sum
}

/// The number of links in the journal of a run: the highest number of a link that it opens.
pub(crate) fn links_in(journal: &Journal) -> u64
    ensures { result ≡ last_opened journal.now }
{
    last_opened(journal.as_slice())
}

/// The number of octets of data that the host of a side receives in the journal of a run, of all
/// links.
pub(crate) fn octets_received(journal: &Journal, side: Side) -> u128
    ensures { result ≡ octets_up side journal.now }
{
    octets_up(journal.as_slice(), side)
}
