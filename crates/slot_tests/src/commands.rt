//! What hosts send.
use crate::links::Timing;
use std::alloc::AllocError;

/// HCI_Reset.
pub(crate) const RESET: &[u8] = b"\x01\x03\x0c\0";

/// LE Set Advertising Parameters with an interval of 20 ms, which is 16 slots, and LE Set Advertising
/// Enable.
pub(crate) const ADVERTISE: &[u8] =
    b"\x01\x06\x20\x0f\x20\0\x20\0\0\0\0\0\0\0\0\0\0\x07\0\x01\x0a\x20\x01\x01";

/// LE Set Advertising Enable, to turn it off.
pub(crate) const ADVERTISE_NO_MORE: &[u8] = b"\x01\x0a\x20\x01\0";

/// LE Set Scan Parameters with an interval of 10 slots and a window of 5, and LE Set Scan Enable.
pub(crate) const SCAN: &[u8] = b"\x01\x0b\x20\x07\0\x14\0\x0a\0\0\0\x01\x0c\x20\x02\x01\0";

/// LE Set Scan Enable, to turn it off.
pub(crate) const SCAN_NO_MORE: &[u8] = b"\x01\x0c\x20\x02\0\0";

/// LE Create Connection Cancel.
pub(crate) const CANCEL: &[u8] = b"\x01\x0e\x20\0";

/// Appends LE Set Random Address with the address of this number, and LE Create Connection from it
/// to the public address that ends in an octet, with the same scan interval and window and with
/// these parameters of the link.
pub(crate) fn put_create(
    host: &mut Vec<u8>,
    number: u32,
    peer: u8,
    timing: Timing,
) -> Result<(), AllocError> {
    host.extend_from_slice(b"\x01\x05\x20\x06")?;
    put_two(host, number)?;
    host.extend_from_slice(b"\0\xee\xff\xc0\x01\x0d\x20\x19\x14\0\x0a\0\0\0")?;
    host.push(peer)?;
    host.extend_from_slice(b"\0\0\xee\xff\xc0\x01")?;
    put_two(host, timing.interval)?;
    put_two(host, timing.interval)?;
    put_two(host, timing.latency)?;
    put_two(host, timing.timeout)?;
    host.extend_from_slice(b"\0\0\0\0")
}

/// Appends a number of 16 bits, least significant octet first.
fn put_two(host: &mut Vec<u8>, number: u32) -> Result<(), AllocError> {
    host.push((number % 256) as u8)?;
    host.push((number / 256 % 256) as u8)?;
    Ok(())
}
