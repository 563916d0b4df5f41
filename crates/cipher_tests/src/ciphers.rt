//! Calls on the ciphers, and what each gives, as words. All of them have the keys of the sample
//! data of Core 5.2, volume 6 part C, section 1.
use crate::ends::put_opened;
use aes_block::Aes;
use arrayvec::ArrayVec;
use ccm_link::{Forged, SealKey, seal, session_key, unseal};
use std::alloc::{AllocError, Global};
use test_words::{Call, hex_number, octets_of, put_answer, put_number, put_octets};

const LTK: u128 = 0x4C68384139F574D836BCF34E9DFB01BF;

const SESSION_KEY: u128 = 0x99AD1B5226A37E3E058E3B8E27C2C666;

const IV: [u8; 8] = [0x24, 0xAB, 0xDC, 0xBA, 0xBE, 0xBA, 0xAF, 0xDE];

/// The counters are below this number (Core 5.2, volume 6 part E, section 2.1).
pub(crate) const COUNTERS: u64 = 1 << 39;

/// The most octets of a payload that is not sealed.
pub(crate) const LONGEST: usize = 251;

/// The number that pairs of hexadecimal digits spell, most significant first.
fn wide(alloc: Global, word: &str) -> u128 {
    let mut number = 0;
    for octet in octets_of(alloc, word).as_slice() {
        number = number << 8 | u128::from(*octet);
    }
    number
}

/// The octet that two hexadecimal digits spell.
pub(crate) fn hex_octet(alloc: Global, word: &str) -> u8 {
    u8::try_from(hex_number(alloc, word)).unwrap_or(u8::MAX)
}

/// What a packet is sealed with: its counter, its sender and its header.
#[derive(Clone, Copy)]
struct Packet {
    counter: u64,
    from_central: bool,
    header: u8,
}

/// The packet that these words spell. Its counter is a hexadecimal number.
fn packet_of(alloc: Global, words: [&str; 8]) -> Packet {
    let [counter, sender, header, ..] = words;
    Packet {
        counter: hex_number(alloc, counter),
        from_central: sender == "central",
        header: hex_octet(alloc, header),
    }
}

/// Makes a call on a cipher.
pub(crate) fn take(call: Call<'_>, told: &mut String) -> Result<(), AllocError> {
    let alloc = *told.allocator();
    let [first, second, ..] = call.words;
    match call.name {
        "encrypt" => put_block(told, wide(alloc, first), wide(alloc, second)),
        "encrypt_for_host" => put_host_block(told, wide(alloc, first), wide(alloc, second)),
        "session_key" => put_session_key(told, first, second),
        _ => take_packet(call, told),
    }
}

/// Makes a call with a packet.
fn take_packet(call: Call<'_>, told: &mut String) -> Result<(), AllocError> {
    let packet = packet_of(*told.allocator(), call.words);
    let octets = octets_of(*told.allocator(), call.words[3]);
    let octets = octets.as_slice();
    match call.name {
        "seal" => put_sealed(told, packet, octets),
        "unseal" => put_unsealed(told, packet, octets),
        "long" => put_long(told, packet),
        "lengths" => put_answer(told, is_each_length_unsealed(packet)),
        _ => told.push_str(" which call?"),
    }
}

/// Key, block and cipher text have the most significant octet first.
fn put_block(told: &mut String, key: u128, block: u128) -> Result<(), AllocError> {
    let aes = Aes::new(&key.to_be_bytes());
    put_octets(told, &aes.encrypt(&block.to_be_bytes()))
}

/// LE_Encrypt carries key, block and answer least significant octet first (Core 5.2, volume 4 part
/// E, section 7.8.22).
fn put_host_block(told: &mut String, key: u128, block: u128) -> Result<(), AllocError> {
    let aes = Aes::new(&key.to_le_bytes());
    let answer = u128::from_le_bytes(aes.encrypt(&block.to_le_bytes()));
    put_octets(told, &answer.to_be_bytes())
}

/// The session key of two key diversifiers.
fn put_session_key(told: &mut String, central: &str, peripheral: &str) -> Result<(), AllocError> {
    let alloc = *told.allocator();
    let (central, peripheral) = (hex_number(alloc, central), hex_number(alloc, peripheral));
    put_octets(told, &session_key(&LTK.to_be_bytes(), central, peripheral))
}

/// A payload that is sealed.
fn put_sealed(told: &mut String, packet: Packet, body: &[u8]) -> Result<(), AllocError> {
    if packet.counter >= COUNTERS || body.is_empty() || body.len() > LONGEST {
        return told.push_str(" cannot");
    }
    let key = SESSION_KEY.to_be_bytes();
    let Packet {
        counter,
        from_central,
        header,
    } = packet;
    put_octets(
        told,
        seal(&key, counter, from_central, &IV, header, body).as_slice(),
    )
}

/// What a sealed payload is opened to.
fn put_unsealed(told: &mut String, packet: Packet, octets: &[u8]) -> Result<(), AllocError> {
    if packet.counter >= COUNTERS || octets.len() > LONGEST + 4 {
        return told.push_str(" cannot");
    }
    let key = SESSION_KEY.to_be_bytes();
    let Packet {
        counter,
        from_central,
        header,
    } = packet;
    put_opened(
        told,
        unseal(&key, counter, from_central, &IV, header, octets),
    )
}

/// The octets 01 to FB.
fn long_body() -> [u8; LONGEST] {
    let mut body = [0; LONGEST];
    for (octet, value) in body.iter_mut().zip(1u8..) {
        *octet = value;
    }
    body
}

/// A payload that is sealed under the prepared key.
fn sealed(packet: Packet, body: &[u8]) -> ArrayVec<u8, 255> {
    let key = SealKey::new(&SESSION_KEY.to_be_bytes());
    if packet.counter >= COUNTERS || body.is_empty() || body.len() > LONGEST {
        return ArrayVec::new();
    }
    let Packet {
        counter,
        from_central,
        header,
    } = packet;
    key.seal(counter, from_central, &IV, header, body)
}

/// Whether octets are opened to a payload under the prepared key.
fn is_unsealed(packet: Packet, octets: &[u8], body: &[u8]) -> bool {
    let key = SealKey::new(&SESSION_KEY.to_be_bytes());
    if packet.counter >= COUNTERS || octets.len() > LONGEST + 4 {
        return false;
    }
    let Packet {
        counter,
        from_central,
        header,
    } = packet;
    match key.unseal(counter, from_central, &IV, header, octets) {
        Ok(opened) => opened.as_slice() == body,
        Err(Forged) => false,
    }
}

/// The longest payload as it is sealed: its octets, and whether it is opened again.
fn put_long(told: &mut String, packet: Packet) -> Result<(), AllocError> {
    let body = long_body();
    let octets = sealed(packet, &body);
    let octets = octets.as_slice();
    put_number(told, octets.len() as u64)?;
    put_octets(told, octets.get(..16).unwrap_or(&[]))?;
    put_octets(told, octets.get(235..).unwrap_or(&[]))?;
    put_answer(told, is_unsealed(packet, octets, &body))
}

/// Whether the first octets of the longest payload, of each number but 0, are opened after they
/// were sealed.
fn is_each_length_unsealed(packet: Packet) -> bool {
    let body = long_body();
    for length in 1..=LONGEST {
        let first = body.get(..length).unwrap_or(&[]);
        if !is_unsealed(packet, sealed(packet, first).as_slice(), first) {
            return false;
        }
    }
    true
}
