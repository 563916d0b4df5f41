//! Calls on packets of a host and on PDUs, and what each gives, as words.
use adv_pdu::{AdvPdu, ConnectFields};
use arrayvec::ArrayVec;
use data_pdu::{CtrlRead, read_ctrl, read_header, write_ctrl, write_header};
use hci_cmd::CmdRead;
use hci_evt::mask_bit;
use std::alloc::AllocError;
use test_words::{hex_number, number, octet, put_answer, put_octets, put_value};

/// Writes octets that were written of what was read, if they are others.
fn put_others(told: &mut String, octets: &[u8], written: &[u8]) -> Result<(), AllocError> {
    if written == octets {
        return Ok(());
    }
    told.push_str(" as")?;
    put_octets(told, written)
}

/// An event and its mask bit.
pub(crate) fn put_event(told: &mut String, octets: &[u8]) -> Result<(), AllocError> {
    let Some(event) = hci_evt::read(octets) else {
        return told.push_str(" none");
    };
    put_value(told, &event)?;
    put_value(told, &mask_bit(&event))?;
    put_others(told, octets, hci_evt::write(&event).as_slice())
}

/// The opcode that four digits spell.
fn opcode_of(told: &String, word: &str) -> u16 {
    u16::try_from(hex_number(*told.allocator(), word)).unwrap_or(u16::MAX)
}

/// What a command is read as.
pub(crate) fn put_read(told: &mut String, opcode: &str, body: &[u8]) -> Result<(), AllocError> {
    let read = hci_cmd::read(opcode_of(told, opcode), body);
    put_value(told, &read)
}

/// What a command is read as, and with an octet more or less, unless that is a bad length.
pub(crate) fn put_command(told: &mut String, opcode: &str, body: &[u8]) -> Result<(), AllocError> {
    put_read(told, opcode, body)?;
    let opcode = opcode_of(told, opcode);
    let mut longer: ArrayVec<u8, 256> = ArrayVec::new();
    let _ = longer.try_extend_from_slice(body);
    let _ = longer.try_push(0);
    put_good(told, opcode, longer.as_slice())?;
    match body {
        [_, shorter @ ..] => put_good(told, opcode, shorter),
        [] => Ok(()),
    }
}

/// What a command is read as, unless it has a bad length.
fn put_good(told: &mut String, opcode: u16, body: &[u8]) -> Result<(), AllocError> {
    match hci_cmd::read(opcode, body) {
        CmdRead::BadLength => Ok(()),
        read => put_value(told, &read),
    }
}

/// A control PDU.
pub(crate) fn put_control(told: &mut String, octets: &[u8]) -> Result<(), AllocError> {
    let read = read_ctrl(octets);
    put_value(told, &read)?;
    match read {
        CtrlRead::Known(ctrl) if ctrl.is_in_range() => {
            put_others(told, octets, write_ctrl(&ctrl).as_slice())
        }
        CtrlRead::Known(_) => told.push_str(" out of range"),
        _ => Ok(()),
    }
}

/// The header of a data channel PDU.
pub(crate) fn put_header(told: &mut String, octets: &[u8]) -> Result<(), AllocError> {
    let [first, length] = octets else {
        return told.push_str(" none");
    };
    let header = read_header([*first, *length]);
    put_value(told, &header)?;
    if header.counts_as_empty() {
        told.push_str(" empty")?;
    }
    put_others(told, octets, &write_header(header))
}

/// A PDU of an advertising channel.
pub(crate) fn put_pdu(told: &mut String, octets: &[u8]) -> Result<(), AllocError> {
    match AdvPdu::read(octets) {
        None => told.push_str(" none"),
        Some(pdu) => {
            put_value(told, &pdu)?;
            put_others(told, octets, pdu.write().as_slice())
        }
    }
}

/// Whether the fields that begin a link are in their ranges.
pub(crate) fn put_fields(told: &mut String, words: [&str; 8]) -> Result<(), AllocError> {
    let [
        win_size,
        win_offset,
        interval,
        latency,
        timeout,
        map,
        hop,
        sca,
    ] = words;
    let fields = ConnectFields {
        access: 0x7176_4129,
        crc_init: 1,
        win_size: octet(win_size),
        win_offset: number(win_offset),
        interval: number(interval),
        latency: number(latency),
        timeout: number(timeout),
        map: hex_number(*told.allocator(), map),
        hop: octet(hop),
        sca: octet(sca),
    };
    put_answer(told, fields.is_in_range())
}
