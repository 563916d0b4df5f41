//! A controller with the most random words.
ghost use Rattle.std.specs.Prelude.{◌≤◌, length};

use arrayvec::ArrayVec;
use ble_base::{Config, Note, Outbox};
use controller::Controller;
use std::alloc::{AllocError, Global};
use std::process::Abort;

/// HCI_LE_Rand, as the octets of a host.
const RAND: [u8; 4] = [0x01, 0x18, 0x20, 0x00];

/// The random words after the first, which is 1.
const LATER: [u64; 63] = [
    2, 3, 4, 5, 6, 7, 8, 9, 10, 11, 12, 13, 14, 15, 16, 17, 18, 19, 20, 21, 22, 23, 24, 25, 26, 27,
    28, 29, 30, 31, 32, 33, 34, 35, 36, 37, 38, 39, 40, 41, 42, 43, 44, 45, 46, 47, 48, 49, 50, 51,
    52, 53, 54, 55, 56, 57, 58, 59, 60, 61, 62, 63, 64,
];

/// The settings with the random words 1 to 64.
fn settings() -> Config
    ensures { 1 ≤ length result.words.items }
{
    let mut words = ArrayVec::new();
    words.push(1);
    let _ = words.try_extend_from_slice(&LATER);
    Config {
        public: [0x0A, 0x00, 0x00, 0xEE, 0xFF, 0xC0],
        cursor: 0x7176_4129,
        words,
    }
}

/// What the controller hands up for HCI_LE_Rand, in hexadecimal digits.
fn rand(alloc: Global, controller: &mut Controller<1, 8, 8>) -> Result<String, AllocError> {
    let mut told = String::new(alloc);
    for octet in RAND {
        let mut out = Outbox::new();
        controller.host_octet(octet, &mut out);
        put_up(&mut told, &out)?;
    }
    Ok(told)
}

/// The octets that are handed up.
fn put_up(told: &mut String, out: &Outbox) -> Result<(), AllocError> {
    for note in out.as_slice() {
        if let Note::Up(octets) = note {
            let digits = hex::encode(*told.allocator(), octets.as_slice())?;
            told.push_str(digits.as_str())?;
        }
    }
    Ok(())
}

/// The event that answers HCI_LE_Rand with this random word, which is below 256.
fn answer(alloc: Global, word: u8) -> Result<String, AllocError> {
    format!(in alloc; "040e0c01182000{word:02x}00000000000000")
}

/// Whether the controller answers HCI_LE_Rand with this random word.
fn gives(
    alloc: Global,
    controller: &mut Controller<1, 8, 8>,
    word: u8,
) -> Result<bool, AllocError> {
    let told = rand(alloc, controller)?;
    Ok(told.as_str() == answer(alloc, word)?.as_str())
}

/// Draws the words 1 to 64, and then the first of them again.
fn draw_all(
    rt: &impl Abort,
    alloc: Global,
    controller: &mut Controller<1, 8, 8>,
) -> Result<(), AllocError> {
    for draw in 0..65u8 {
        assert!(rt; gives(alloc, controller, draw % 64 + 1)?, "{draw}");
    }
    Ok(())
}

#[test]
fn the_65th_draw_is_the_first_of_64_words(rt: HostRuntime) -> Result<(), AllocError> {
    let alloc = rt.alloc();
    let mut controller = Controller::start(alloc, settings())?;
    draw_all(&rt, alloc, &mut controller)
}
