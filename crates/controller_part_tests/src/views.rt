//! The statuses of the table of commands, row by row, and what accepted commands and notes change.
use crate::scripts::check;
use arrayvec::ArrayVec;
use ble_base::{Address, ErrCode, Kind, Note, Role};
use hci_cmd::{CmdRead, Command};
use host_view::{HostView, laws, status};
use std::alloc::{AllocError, Global};
use test_words::{Call, hex_number, number, octets_of, put_answer, put_octets};

const PEER: Address = Address {
    random: false,
    octets: [1, 2, 3, 4, 5, 6],
};

/// Makes a call on a view.
pub(crate) fn take(
    view: &mut HostView,
    call: Call<'_>,
    told: &mut String,
) -> Result<(), AllocError> {
    match call.name {
        "new" => begin(view),
        "status" => put_status(view, call, told),
        "command" => put_status(view, call, told),
        "map" => put_octets(told, &view.map().bits().to_be_bytes()),
        "accepts" => put_answer(told, view.accept_list().has(listed(call))),
        "encrypted" => put_answer(told, view.was_encrypted(number(call.words[0]))),
        _ => note(view, call, *told.allocator()),
    }
}

/// The view is a new one, with room for three links.
fn begin(view: &mut HostView) -> Result<(), AllocError> {
    *view = HostView::new(3);
    Ok(())
}

/// The command with this opcode and these parameters.
fn command_of(alloc: Global, [opcode, parameters, ..]: [&str; 8]) -> Option<Command> {
    let opcode = u16::try_from(hex_number(alloc, opcode)).unwrap_or(u16::MAX);
    match hci_cmd::read(opcode, octets_of(alloc, parameters).as_slice()) {
        CmdRead::Known(command) => Some(command),
        _ => None,
    }
}

/// The status of a command. One by the name "command" changes the view, if it is accepted.
fn put_status(view: &mut HostView, call: Call<'_>, told: &mut String) -> Result<(), AllocError> {
    let Some(command) = command_of(*told.allocator(), call.words) else {
        return told.push_str(" which command?");
    };
    let code = status(view, &command);
    if code.0 == 0 && call.name == "command" {
        view.command(&command);
    }
    put_octets(told, &[code.0])
}

/// A public address, or a random one, of six equal octets; or that of the peer.
fn listed(call: Call<'_>) -> Address {
    match call.words[0] {
        "random" => Address {
            random: true,
            octets: [1; 6],
        },
        _ => PEER,
    }
}

/// Something is noted.
fn note(view: &mut HostView, call: Call<'_>, alloc: Global) -> Result<(), AllocError> {
    let handle = number(call.words[0]);
    match call.name {
        "central" => view.note(&opened(Role::Central, handle)),
        "peripheral" => view.note(&opened(Role::Peripheral, handle)),
        "shut" => view.note(&Note::Shut {
            handle,
            reason: ErrCode::CONNECTION_TIMEOUT,
        }),
        "took" => view.note(&taken(handle, octets_of(alloc, call.words[1]).as_slice())),
        "done" => view.note(&Note::Done {
            handle,
            kind: kind_of(call.words[1]),
        }),
        "up" => view.note(&packet(octets_of(alloc, call.words[0]).as_slice())),
        _ => view.address_left(false),
    }
    Ok(())
}

/// A link to the peer is opened.
fn opened(role: Role, handle: u16) -> Note {
    Note::Opened {
        handle,
        role,
        own: Address::default(),
        peer: PEER,
    }
}

/// A control PDU is taken, without the octets that do not fit.
fn taken(handle: u16, octets: &[u8]) -> Note {
    let mut body = ArrayVec::new();
    let _ = body.try_extend_from_slice(octets);
    Note::Took {
        handle,
        number: 1,
        llid: 3,
        body,
    }
}

/// The procedure with this name; the others stand for a change of PHYs.
fn kind_of(name: &str) -> Kind {
    match name {
        "encrypt" => Kind::Encrypt,
        "version" => Kind::Version,
        _ => Kind::Phy,
    }
}

/// A packet goes to the host, without the octets that do not fit.
fn packet(octets: &[u8]) -> Note {
    let mut packet = ArrayVec::new();
    let _ = packet.try_extend_from_slice(octets);
    Note::Up(packet)
}

const VIEWS: &str = "\
# Advertising parameters.
view status 2006 200000400401010000000000000703 = 00
view status 2006 1f0000400102020000000000000004 = 12
view status 2006 200001400102020000000000000004 = 12
view status 2006 410040000102020000000000000004 = 12
view status 2006 200020000102020000000000000004 = 11
view status 2006 200020000502020000000000000004 = 12
view status 2006 200020000203020000000000000004 = 11
view status 2006 200020000204020000000000000004 = 12
view status 2006 200020000201020000000000000004 = 12
view status 2006 200020000201010000000000000004 = 12
view status 2006 200020000201010000000000000804 = 12
view status 2006 200020000201010000000000000704 = 12
# Commands on a link: without one, on one of a central, and on one of a peripheral that is shut.
view status 2030 0000 = 02
view status 2015 0000 = 02
view status 201b 0000 = 02
view status 0406 000016 = 02
view central 0
view status 2030 0000 = 00
view status 2015 0000 = 00
view status 201b 0000 = 0c
view status 0406 000016 = 12
view new
view peripheral 0
view shut 0
view status 2030 0000 = 02
# A key is asked for and given.
view new
view peripheral 0
view up 043e0d0500000102030405060708090a
view command 201b 0000 = 00
view status 201b 0000 = 0c
view done 0
view address_left
# A peripheral is encrypted by the first LL_START_ENC_RSP after its host gave a key. One before that \
    changes nothing, so that the encryption that follows is the first.
view new
view peripheral 0
view took 0 06
view encrypted 0 = no
view up 043e0d05000001020304050607080a0b
view took 0 06
view encrypted 0 = no
view command 201a 0000000102030405060708090a0b0c0d0e0f = 00
view took 0 0b
view encrypted 0 = no
view took 0 06
view encrypted 0 = yes
# It stays so while a key is asked for again.
view up 043e0d05000001020304050607080a0b
view encrypted 0 = yes
view command 201b 0000 = 00
view took 0 06
view encrypted 0 = yes
# A peripheral whose host has no key is not encrypted.
view new
view peripheral 0
view up 043e0d05000001020304050607080a0b
view command 201b 0000 = 00
view took 0 06
view encrypted 0 = no
# A central is encrypted once its procedure is done, and not by LL_START_ENC_RSP before.
view new
view central 0
view took 0 06
view encrypted 0 = no
view command 2019 000001020304050607080a0b000102030405060708090a0b0c0d0e0f = 00
view took 0 06
view done 0
view encrypted 0 = no
view done 0 encrypt
view encrypted 0 = yes
# A new link under its handle is not.
view shut 0
view encrypted 0 = no
view central 0
view encrypted 0 = no
# Channels without a link, and on one of a central.
view new
view map = 0000001fffffffff
view status 2014 0300000000 = 00
view status 2014 0100000000 = 12
view status 2014 0000000020 = 12
view command 2014 0300000000 = 00
view map = 0000000000000003
view new
view central 0
view status 2014 ffffffff1f = 00
view status 2014 0300000000 = 00
view status 2014 0100000000 = 12
# Procedures that a host asks for: one of a kind at a time, and none once it ends the link.
view command 2013 0000060006000000480000000000 = 00
view status 2013 0000060006000000480000000000 = 0c
view status 041d 0000 = 00
view command 0406 000013 = 00
view status 041d 0000 = 0c
view status 0406 000013 = 0c
# A peripheral requests other parameters, one time after the other, and PHYs. No request of its \
    peer waits for an answer.
view new
view peripheral 0
view command 2013 0000060006000000480000000000 = 00
view status 2013 0000060006000000480000000000 = 0c
view status 2022 00001b004801 = 00
view status 2032 00000002010000 = 11
view status 2032 00000001000000 = 12
view status 2032 00000202010000 = 11
view status 2032 00000102010000 = 00
view command 2032 00000001010000 = 00
view status 2032 00000001010000 = 0c
view status 2020 0000060006000000480000000000 = 0c
view status 2021 00003b = 0c
# The version of the peer may be asked for again once it is known.
view new
view central 0
view command 041d 0000 = 00
view status 041d 0000 = 0c
view done 0 version
view status 041d 0000 = 00
# Of three packets that the host received it has taken two, and then one.
view new
view command 0c31 01 = 00
view command 0c33 1b000003000000 = 00
view peripheral 0
view up 02002001005a
view up 02002001005a
view up 02002001005a
view command 0c35 0100000200 = 00
view status 0c35 0100000200 = 12
view command 0c35 0100000100 = 00
view status 0c35 0100000100 = 12
# The accept list.
view new
view command 2011 01010101010101 = 00
view accepts random = yes
view accepts peer = no
view command 2012 01010101010101 = 00
view accepts random = no
# A link under a handle after the last one.
view new
view central 6
view status 2030 0600 = 02
";

#[test]
fn views_of_a_host(rt: HostRuntime) -> Result<(), AllocError> {
    check(&rt, rt.alloc(), VIEWS)?;
    laws::accepted_parameters_are_in_range();
    laws::accepted_connection_can_be_made();
    Ok(())
}
