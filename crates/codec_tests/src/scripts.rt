//! Scripts: each line has a call, and after " =" what it gives. Numbers after 0x are hexadecimal, a
//! value is as `Debug` writes it, and a line that begins with "#" says what follows.
use crate::base::{put_base, put_counter};
use crate::calls::{
    put_command, put_control, put_event, put_fields, put_header, put_pdu, put_read,
};
use crate::fields::{put_appended, put_sliced, put_taken};
use crate::radio_calls::{
    put_built, put_crc, put_gap, put_heard, put_map, put_plain, put_whitened, wide,
};
use crate::sums::{is_whitened_so, put_other_sum};
use std::alloc::{AllocError, Global};
use std::process::Abort;
use test_words::{Call, call_of, decimal_of, octet, octets_of, parts_of, put_answer};

/// Makes each call of a script, and compares what it gives.
pub(crate) fn check(rt: &impl Abort, alloc: Global, script: &str) -> Result<(), AllocError> {
    for line in script.lines() {
        let (call, want) = parts_of(line);
        let (told, want) = (told_of(alloc, call)?, decimal_of(alloc, want)?);
        assert_eq!(rt; told.as_str(), want.as_str(), "{line}");
    }
    Ok(())
}

/// What a call gives.
fn told_of(alloc: Global, text: &str) -> Result<String, AllocError> {
    let mut told = String::new(alloc);
    take(call_of(text), &mut told)?;
    Ok(told)
}

/// Makes a call whose first word has octets.
fn take(call: Call<'_>, told: &mut String) -> Result<(), AllocError> {
    let octets = octets_of(*told.allocator(), call.words[0]);
    let octets = octets.as_slice();
    match call.name {
        "#" => Ok(()),
        "event" => put_event(told, octets),
        "control" => put_control(told, octets),
        "pdu" => put_pdu(told, octets),
        "header" => put_header(told, octets),
        "fields" => put_fields(told, call.words),
        "map" => put_map(told, call.words[0]),
        "gap" => put_gap(told, call.words),
        "take" => put_taken(told),
        "slice" => put_sliced(told),
        _ => take_after_number(call, told),
    }
}

/// Makes a call whose second word has octets.
fn take_after_number(call: Call<'_>, told: &mut String) -> Result<(), AllocError> {
    let octets = octets_of(*told.allocator(), call.words[1]);
    let octets = octets.as_slice();
    match call.name {
        "command" => put_command(told, call.words[0], octets),
        "opcode" => put_read(told, call.words[0], octets),
        "crc" => put_crc(told, call.words[0], octets),
        "whiten" => put_whitened(told, call.words[0], octets),
        "append" => put_appended(told),
        "base" => put_base(told, call.words[0]),
        "counter" => put_counter(told, call.words[0]),
        "register" => put_other_sum(told, wide(told, call.words[0])),
        "whitens" => put_answer(told, is_whitened_so(octet(call.words[0]))),
        _ => take_on_channel(call, told),
    }
}

/// Makes a call with a channel, an access address and the start of a CRC.
fn take_on_channel(call: Call<'_>, told: &mut String) -> Result<(), AllocError> {
    let [channel, access, init, octets, ..] = call.words;
    let octets = octets_of(*told.allocator(), octets);
    let octets = octets.as_slice();
    match call.name {
        "build" => put_built(told, [channel, access, init], octets),
        "hear" => put_heard(told, [channel, access, init], octets),
        "plain" => put_plain(told, [channel, access, init], octets),
        _ => told.push_str(" which call?"),
    }
}
