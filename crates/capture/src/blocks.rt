//! Writing the blocks of a capture file.
ghost use Rattle.std.specs.Prelude.{◌≡◌, ◌^◌, ◌<◌, ◌++◌, length, replicate, OnOk};
ghost use Rattle.capture.specs.Blocks.{block, half, interface, option_of, packet_block, padded, section_header, word};
ghost use Rattle.capture.specs.Capture.{file_header};

use std::alloc::{AllocError, Global};

/// The type of a Section Header Block.
const SECTION: u64 = 0x0A0D_0D0A;

/// The type of an Interface Description Block.
const INTERFACE: u64 = 1;

/// The type of an Enhanced Packet Block.
const PACKET: u64 = 6;

/// Writes a number of 16 bits.
pub fn put_half(out: &mut Vec<u8>, number: u16) -> Result<(), AllocError>
    ensures { OnOk result (out.new.items ≡ out.old.items ++ half number) }
{
    out.extend_from_slice(&number.to_le_bytes())
}

/// Writes the low 32 bits of a number.
fn put_word(out: &mut Vec<u8>, number: u64) -> Result<(), AllocError>
    ensures { OnOk result (out.new.items ≡ out.old.items ++ word number) }
{
    let [a, b, c, d, _, _, _, _] = number.to_le_bytes();
    out.extend_from_slice(&[a, b, c, d])
}

/// Writes octets, and zeros after them up to a multiple of four.
fn put_padded(out: &mut Vec<u8>, octets: &[u8]) -> Result<(), AllocError>
    ensures { OnOk result (out.new.items ≡ out.old.items ++ padded octets.now) }
{
    out.extend_from_slice(octets)?;
    put_zeros(out, (4 - octets.len() % 4) % 4)
}

/// Writes this number of zeros.
fn put_zeros(out: &mut Vec<u8>, count: usize) -> Result<(), AllocError>
    requires { count < 4 }
    ensures { OnOk result (out.new.items ≡ out.old.items ++ replicate count 0) }
{
    out.extend_from_slice(&[0; 3][..count])
}

/// Writes a block with this body.
fn put_block(out: &mut Vec<u8>, kind: u64, body: &[u8]) -> Result<(), AllocError>
    ensures { OnOk result (out.new.items ≡ out.old.items ++ block kind body.now) }
{
    let size = body.len() as u64 + 12;
    put_word(out, kind)?;
    put_word(out, size)?;
    out.extend_from_slice(body)?;
    put_word(out, size)
}

/// Writes the Section Header Block.
fn put_section(alloc: Global, out: &mut Vec<u8>) -> Result<(), AllocError>
    ensures { OnOk result (out.new.items ≡ out.old.items ++ section_header) }
{
    let mut body = Vec::new(alloc);
    put_word(&mut body, 0x1A2B_3C4D)?;
    put_half(&mut body, 1)?;
    put_half(&mut body, 0)?;
    body.extend_from_slice(&[0xFF; 8])?;
    put_block(out, SECTION, &body)
}

/// Writes an option.
fn put_option(out: &mut Vec<u8>, code: u16, value: &[u8]) -> Result<(), AllocError>
    requires { length value.now < 2 ^ 16 }
    ensures { OnOk result (out.new.items ≡ out.old.items ++ option_of code value.now) }
{
    put_half(out, code)?;
    put_half(out, value.len() as u16)?;
    put_padded(out, value)
}

/// Writes an Interface Description Block.
fn put_interface(
    alloc: Global,
    out: &mut Vec<u8>,
    link_type: u16,
    name: &[u8],
) -> Result<(), AllocError>
    requires { length name.now < 2 ^ 16 }
    ensures { OnOk result (out.new.items ≡ out.old.items ++ interface link_type name.now) }
{
    let mut body = Vec::new(alloc);
    put_half(&mut body, link_type)?;
    put_half(&mut body, 0)?;
    put_word(&mut body, 0)?;
    put_option(&mut body, 2, name)?;
    put_option(&mut body, 0, b"")?;
    put_block(out, INTERFACE, &body)
}

/// Writes the blocks before all packets.
pub fn put_header(alloc: Global, out: &mut Vec<u8>) -> Result<(), AllocError>
    ensures { OnOk result (out.new.items ≡ out.old.items ++ file_header) }
{
    put_section(alloc, out)?;
    put_interface(alloc, out, 256, b"air")?;
    put_interface(alloc, out, 201, b"host a")?;
    put_interface(alloc, out, 201, b"host b")
}

/// Writes an Enhanced Packet Block.
pub fn put_packet(
    alloc: Global,
    out: &mut Vec<u8>,
    interface: u64,
    time: u64,
    octets: &[u8],
) -> Result<(), AllocError>
    ensures { OnOk result (out.new.items
        ≡ out.old.items ++ packet_block interface time octets.now) }
{
    let mut body = Vec::new(alloc);
    put_word(&mut body, interface)?;
    put_word(&mut body, time >> 32)?;
    put_word(&mut body, time)?;
    put_word(&mut body, octets.len() as u64)?;
    put_word(&mut body, octets.len() as u64)?;
    put_padded(&mut body, octets)?;
    put_block(out, PACKET, &body)
}
