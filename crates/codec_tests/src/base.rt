//! Channel maps, Instants, error codes, and the types that all crates share.
use crate::scripts::check;
use arrayvec::ArrayVec;
use ble_base::{
    Address, ChannelMap, Config, ErrCode, EventNo, Kind, Note, Outbox, Role, Side, SlotNo, Verdict,
};
use std::alloc::AllocError;
use test_words::{put_answer, put_number, put_octets, slot};

/// Makes a call on the types that all crates share.
pub(crate) fn put_base(told: &mut String, name: &str) -> Result<(), AllocError> {
    match name {
        "sides" => put_answer(
            told,
            Side::A.other() == Side::B && Side::B.other() == Side::A,
        ),
        "channels" => put_number(told, u64::from(ChannelMap::default().count())),
        "codes" => put_codes(told),
        "notes" => put_number(told, notes().len() as u64),
        "words" => put_number(told, Config::default().words.len() as u64),
        "defaults" => put_answer(told, are_defaults()),
        "copy" => put_answer(told, is_copied()),
        _ => told.push_str(" which call?"),
    }
}

/// The counter of an event.
pub(crate) fn put_counter(told: &mut String, event: &str) -> Result<(), AllocError> {
    put_number(told, u64::from(EventNo(u64::from(slot(event))).counter()))
}

/// The numbers of Core 5.2, volume 1 part F, section 1.3.
fn put_codes(told: &mut String) -> Result<(), AllocError> {
    put_octets(
        told,
        &[
            ErrCode::SUCCESS.0,
            ErrCode::UNKNOWN_HCI_COMMAND.0,
            ErrCode::UNKNOWN_CONNECTION_IDENTIFIER.0,
            ErrCode::PIN_OR_KEY_MISSING.0,
            ErrCode::MEMORY_CAPACITY_EXCEEDED.0,
            ErrCode::CONNECTION_TIMEOUT.0,
            ErrCode::CONNECTION_LIMIT_EXCEEDED.0,
            ErrCode::CONNECTION_ALREADY_EXISTS.0,
            ErrCode::COMMAND_DISALLOWED.0,
            ErrCode::LIMITED_RESOURCES.0,
            ErrCode::UNSUPPORTED_FEATURE_OR_VALUE.0,
            ErrCode::INVALID_HCI_PARAMETERS.0,
            ErrCode::REMOTE_USER_TERMINATED.0,
            ErrCode::TERMINATED_BY_LOCAL_HOST.0,
            ErrCode::UNSUPPORTED_REMOTE_FEATURE.0,
            ErrCode::INVALID_LL_PARAMETERS.0,
            ErrCode::LL_RESPONSE_TIMEOUT.0,
            ErrCode::LL_PROCEDURE_COLLISION.0,
            ErrCode::INSTANT_PASSED.0,
            ErrCode::DIFFERENT_TRANSACTION_COLLISION.0,
            ErrCode::UNACCEPTABLE_PARAMETERS.0,
            ErrCode::MIC_FAILURE.0,
            ErrCode::CONNECTION_NOT_ESTABLISHED.0,
        ],
    )
}

/// Three notes.
fn notes() -> Outbox {
    let peer = Address {
        random: true,
        octets: [1, 2, 3, 4, 5, 0xC6],
    };
    let opened = Note::Opened {
        handle: 1,
        role: Role::Central,
        own: Address::default(),
        peer,
    };
    let refused = Note::Refused {
        handle: 1,
        kind: Kind::Request,
        code: ErrCode(0x2A),
    };
    let mut notes = Outbox::new();
    for note in [Note::Up(ArrayVec::new()), opened, refused] {
        let _ = notes.try_push(note);
    }
    notes
}

/// Whether these types have the defaults that they are to have.
fn are_defaults() -> bool {
    let done = Note::Done {
        handle: 0,
        kind: Kind::Update,
    };
    Note::default() == done
        && Verdict::default() == Verdict::Missed
        && SlotNo::default() == SlotNo(0)
}

/// Whether a copy of settings is equal to them.
fn is_copied() -> bool {
    let mut words = ArrayVec::new();
    words.push(7);
    words.push(u64::MAX);
    let config = Config {
        public: [1, 2, 3, 4, 5, 6],
        cursor: 0x7176_4129,
        words,
    };
    config.copy() == config
}

const SHARED: &str = "\
# Of a map the channels by their places, those that it uses, and whether its bits are these.
map 00 = none
map 01 = none
map 1000000000 = none
map 03 = 0 1 used 0 1 yes
map 1e00e00600 = 9 10 21 22 23 33 34 35 36 used 9 10 21 22 23 33 34 35 36 yes
map 1fffffffff = 0 1 2 3 4 5 6 7 8 9 10 11 12 13 14 15 16 17 18 19 20 21 22 23 24 25 26 27 28 29 \
    30 31 32 33 34 35 36 used 0 1 2 3 4 5 6 7 8 9 10 11 12 13 14 15 16 17 18 19 20 21 22 23 24 25 \
    26 27 28 29 30 31 32 33 34 35 36 yes
map 2000000003 = none
map 8000000000000003 = none
# Gaps wrap round. From the second event to the first, modulo 65536.
gap 7 7 = 0
gap 6 7 = 65535
gap 0 65535 = 1
gap 10 4 = 6
# Small values.
counter 196613 = 5
base sides = yes
base channels = 37
# The error codes, in order.
base codes = 000102060708090b0c0d111213161a1e2223282a3b3d3e
# Notes in an outbox, random words of the settings, defaults, and settings that are copied.
base notes = 3
base words = 0
base defaults = yes
base copy = yes
";

#[test]
fn shared_types(rt: HostRuntime) -> Result<(), AllocError> {
    check(&rt, rt.alloc(), SHARED)
}
