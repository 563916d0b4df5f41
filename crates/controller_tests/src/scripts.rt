//! Scripts: calls on controllers, each with what it gives.
ghost use Rattle.std.specs.Prelude.{◌≤◌, ◌+◌, ◌*◌, length};

use crate::calls::take;
use arrayvec::ArrayVec;
use ble_base::Config;
use controller::Controller;
use std::alloc::{AllocError, Global};
use std::process::Abort;
use test_words::{Call, TakesCalls, first_wrong, hex_number};

/// A device A with the address C0FFEE00000A and a device B with the address C0FFEE00000B, each of
/// three links, eight packets of its host and eight pieces from the air; and A once more, with one
/// link.
#[derive(Drop)]
struct Scene {
    pair: Vec<Controller<3, 8, 8>>,
    single: Vec<Controller<1, 8, 8>>,
}

/// The settings of the device whose public address ends in this octet. It draws these random words,
/// the first of which is 1 or 2.
fn settings(last: u8, word: u64, more: &[u64]) -> Config
    ensures { 1 ≤ length result.words.items }
{
    let mut words = ArrayVec::new();
    words.push(word);
    let _ = words.try_extend_from_slice(more);
    Config {
        public: [last, 0x00, 0x00, 0xEE, 0xFF, 0xC0],
        cursor: 0x7176_4129,
        words,
    }
}

/// Adds a controller before its first call. It draws these random words, the first of which is 1 or
/// 2.
fn add<const L: usize>(
    controllers: &mut Vec<Controller<L, 8, 8>>,
    last: u8,
    word: u64,
    more: &[u64],
) -> Result<(), AllocError>
    requires { (1 ≤ L) × (8 * L + 8 + 8 ≤ 64) }
{
    let alloc = *controllers.allocator();
    let controller = Controller::start(alloc, settings(last, word, more))?;
    controllers.push(controller)?;
    Ok(())
}

/// Each line has a call, and after " =" what it gives. At a line "start" all controllers start, and
/// device A draws 1 and then the random words of that line, of which there are up to two. A line
/// that begins with "#" says what follows.
pub(crate) fn check(rt: &impl Abort, alloc: Global, script: &str) -> Result<(), AllocError> {
    let mut scene = Scene {
        pair: Vec::new(alloc),
        single: Vec::new(alloc),
    };
    let wrong = first_wrong(&mut scene, alloc, script)?;
    assert_eq!(rt; wrong.as_str(), "");
    Ok(())
}

/// The random words of a line "start".
fn random_words(alloc: Global, call: Call<'_>) -> ArrayVec<u64, 2> {
    let mut words = ArrayVec::new();
    for word in [call.name, call.words[0]] {
        if !word.is_empty() {
            let _ = words.try_push(hex_number(alloc, word));
        }
    }
    words
}

impl TakesCalls for Scene {
    /// Makes a call, and writes what it gives.
    fn take(&mut self, side: &str, call: Call<'_>, told: &mut String) -> Result<(), AllocError> {
        match side {
            "a" => take_at(self.pair.as_mut_slice(), 0, call, told),
            "b" => take_at(self.pair.as_mut_slice(), 1, call, told),
            "single" => take_at(self.single.as_mut_slice(), 0, call, told),
            "start" => self.start(random_words(*told.allocator(), call).as_slice()),
            "#" => Ok(()),
            _ => told.push_str(" which controller?"),
        }
    }
}

impl Scene {
    /// All controllers start. Device A draws 1 and then these random words, and device B draws 2.
    fn start(&mut self, more: &[u64]) -> Result<(), AllocError> {
        self.pair.clear();
        self.single.clear();
        add(&mut self.pair, 0x0A, 1, more)?;
        add(&mut self.pair, 0x0B, 2, &[])?;
        add(&mut self.single, 0x0A, 1, &[])
    }
}

/// Makes a call on the controller at this place.
fn take_at<const L: usize>(
    controllers: &mut [Controller<L, 8, 8>],
    place: usize,
    call: Call<'_>,
    told: &mut String,
) -> Result<(), AllocError> {
    match controllers.get_mut(place) {
        None => told.push_str(" which controller?"),
        Some(controller) => take(controller, call, told),
    }
}
