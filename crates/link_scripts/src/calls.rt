//! Calls on one end of a link, and what each gives, as words.
ghost use Rattle.procedure_values.specs.Wants.{IsAsk};

use crate::ends::End;
use crate::notes::put_reason;
use ble_base::{ChannelMap, ErrCode};
use procedures::Ask;
use std::alloc::AllocError;
use test_words::{Call, hex_number, octets_of, put_answer, put_number, put_value, slot};

/// The most octets of data in one packet.
const MOST: [u8; 251] = [7; 251];

/// The long term key of the sample data of Core 5.2, volume 6 part C, section 1, and another one.
pub const LTK: [u8; 16] = [
    0x4C, 0x68, 0x38, 0x41, 0x39, 0xF5, 0x74, 0xD8, 0x36, 0xBC, 0xF3, 0x4E, 0x9D, 0xFB, 0x01, 0xBF,
];

const OTHER: [u8; 16] = [0x22; 16];

/// An encryption with this long term key, and with the other values of the sample data.
fn encryption(ltk: [u8; 16]) -> Ask
    ensures { IsAsk result }
{
    Ask::Encrypt {
        rand: 0xABCD_EF12_3456_7890,
        ediv: 0x2474,
        ltk,
        skd_m: 0xACBD_CEDF_E0F1_0213,
        iv_m: 0xBADC_AB24,
    }
}

/// What a host asks: an update to a timeout of 1 s, with a latency of no event or of one, a request
/// for 40 ms, a map of the channels 0 to 32, at most 251 octets, a PHY update, the features of the
/// peer, an encryption, one with another key, or the version of the peer.
pub fn ask_named(name: &str) -> Ask
    ensures { IsAsk result }
{
    match name {
        "update" => Ask::Update {
            interval: 24,
            latency: 0,
            timeout: 100,
        },
        "latency" => Ask::Update {
            interval: 24,
            latency: 1,
            timeout: 100,
        },
        "request" => Ask::Request {
            min: 32,
            max: 32,
            latency: 0,
            timeout: 72,
        },
        "map" => Ask::Map(ChannelMap::new(0x01_FFFF_FFFF).unwrap_or_default()),
        "length" => Ask::Length { tx: 251 },
        "phy" => Ask::Phy,
        "features" => Ask::Features,
        "encrypt" => encryption(LTK),
        "other" => encryption(OTHER),
        _ => Ask::Version,
    }
}

/// The error that two digits spell.
pub fn code_of(told: &String, word: &str) -> ErrCode {
    ErrCode(u8::try_from(hex_number(*told.allocator(), word)).unwrap_or(u8::MAX))
}

/// Makes a call of the host on an end.
pub fn take(end: &mut End, call: Call<'_>, told: &mut String) -> Result<(), AllocError> {
    let [first, second, ..] = call.words;
    match call.name {
        "ask" => end.ask(ask_named(first)),
        "grant" => end.answer(Ok(ask_named("update"))),
        "refuse" => end.answer(Err(code_of(told, first))),
        "end" => end.finish(code_of(told, first), slot(second)),
        "key" => end.key(Some(LTK), slot(first)),
        "other_key" => end.key(Some(OTHER), slot(first)),
        "no_key" => end.key(None, slot(first)),
        _ => return look(end, call, told),
    }
    Ok(())
}

/// The host gives the octets that a word spells, or the most that one packet has.
fn give(end: &mut End, word: &str, told: &mut String) -> Result<(), AllocError> {
    if word == "most" {
        return put_answer(told, end.give(&MOST));
    }
    let body = octets_of(*told.allocator(), word);
    put_answer(told, end.give(body.as_slice()))
}

/// Gives data to an end, or writes what is known of it.
fn look(end: &mut End, call: Call<'_>, told: &mut String) -> Result<(), AllocError> {
    let first = call.words[0];
    match call.name {
        "give" => give(end, first, told),
        "may_ask" => put_answer(told, end.link.may_ask(ask_named(first).kind())),
        "awaits_host" => put_answer(told, end.link.awaits_host()),
        "awaits_key" => put_answer(told, end.link.awaits_key()),
        "due" => put_reason(told, end.due(slot(first))),
        _ => look_further(end, call.name, told),
    }
}

/// Writes what is known of the event of an end and of the peer.
fn look_further(end: &End, name: &str, told: &mut String) -> Result<(), AllocError> {
    match name {
        "lengths" => put_value(told, &end.link.lengths()),
        "span" => put_number(told, u64::from(end.link.span())),
        "timeout" => put_number(told, u64::from(end.link.params().timeout)),
        "wants" => put_answer(told, end.wants()),
        "again" => put_answer(told, end.link.again()),
        "knows_version" => put_answer(told, end.link.peer().version.is_some()),
        _ => told.push_str(" which call?"),
    }
}
