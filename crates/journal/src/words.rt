//! Writing the words of a line.
ghost use Rattle.std.specs.Prelude.{◌≡◌, ◌≤◌, ◌∷◌, [], ◌++◌, length, codes, decimal, OnOk};
ghost use Rattle.hex.specs.Hex.{encode_lower};
ghost use Rattle.journal.specs.Words.{side_name, role_name, kind_name, verdict_name, radios, hexadecimal, mark_word};

use crate::entries::Mark;
use ble_base::{ErrCode, Kind, Role, Side, Verdict};
use itoa::Buffer;
use std::alloc::AllocError;

/// The number of octets that are written in hexadecimal at once.
const BLOCK: usize = 32;

/// The word of a side.
fn side_word(side: Side) -> &'static [u8]
    ensures { result.now ≡ side_name side }
{
    match side {
        Side::A => b"a",
        Side::B => b"b",
    }
}

/// The word of a role.
pub fn role_word(role: Role) -> &'static [u8]
    ensures { result.now ≡ role_name role }
{
    match role {
        Role::Central => b"central",
        Role::Peripheral => b"peripheral",
    }
}

/// The word of a control procedure.
pub fn kind_word(kind: Kind) -> &'static [u8]
    ensures { result.now ≡ kind_name kind }
{
    match kind {
        Kind::Update => b"update",
        Kind::Request => b"request",
        Kind::Map => b"map",
        Kind::Phy => b"phy",
        Kind::Features => b"features",
        Kind::Version => b"version",
        Kind::Length => b"length",
        Kind::Encrypt => b"encrypt",
    }
}

/// The word of a verdict.
pub fn verdict_word(verdict: Verdict) -> &'static [u8]
    ensures { result.now ≡ verdict_name verdict }
{
    match verdict {
        Verdict::Missed => b"missed",
        Verdict::Broken => b"broken",
        Verdict::Forged => b"forged",
        Verdict::Good => b"good",
    }
}

/// The radios of a turn: a plus for one that is on and a minus for one that is off, A first.
pub fn radio_word(a_on: bool, b_on: Option<bool>) -> &'static [u8]
    ensures { result.now ≡ radios a_on b_on }
{
    match (a_on, b_on) {
        (true, None) => b"+",
        (false, None) => b"-",
        (true, Some(true)) => b"++",
        (true, Some(false)) => b"+-",
        (false, Some(true)) => b"-+",
        (false, Some(false)) => b"--",
    }
}

/// Writes a further word.
pub fn put_word(text: &mut Vec<u8>, word: &[u8]) -> Result<(), AllocError>
    ensures { OnOk result (text.new.items ≡ text.old.items ++ 32 ∷ word.now) }
{
    text.push(b' ')?;
    text.extend_from_slice(word)
}

/// Writes a side as a further word.
pub fn put_side(text: &mut Vec<u8>, side: Side) -> Result<(), AllocError>
    ensures { OnOk result (text.new.items ≡ text.old.items ++ 32 ∷ side_name side) }
{
    put_word(text, side_word(side))
}

/// Writes a number as a further word, in decimal.
pub fn put_number(text: &mut Vec<u8>, number: u64) -> Result<(), AllocError>
    ensures { OnOk result (text.new.items ≡ text.old.items ++ 32 ∷ decimal number) }
{
    let mut buffer = Buffer::new();
    put_word(text, buffer.format(number).as_bytes())
}

/// Writes a block of octets in hexadecimal.
fn put_block(text: &mut Vec<u8>, octets: &[u8]) -> Result<(), AllocError>
    requires { length octets.now ≤ BLOCK }
    ensures { OnOk result (text.new.items ≡ text.old.items ++ encode_lower octets.now) }
{
    let mut buffer = [0; 2 * BLOCK];
    let digits = &mut buffer[..2 * octets.len()];
    hex::encode_to_slice(octets, digits).unwrap();
    text.extend_from_slice(digits)
}

/// Writes octets in hexadecimal.
fn put_digits(text: &mut Vec<u8>, octets: &[u8]) -> Result<(), AllocError>
    ensures { OnOk result (text.new.items ≡ text.old.items ++ encode_lower octets.now) }
{
    let mut rest = octets;
    while rest.len() > BLOCK {
        let (front, back) = rest.split_at(BLOCK);
        put_block(text, front)?;
        rest = back;
    }
    put_block(text, rest)
}

/// Writes octets in hexadecimal; a dash if there are none.
fn put_hexadecimal(text: &mut Vec<u8>, octets: &[u8]) -> Result<(), AllocError>
    ensures { OnOk result (text.new.items ≡ text.old.items ++ hexadecimal octets.now) }
{
    if octets.is_empty() {
        text.extend_from_slice(b"-")
    } else {
        put_digits(text, octets)
    }
}

/// Writes octets as a further word.
pub fn put_octets(text: &mut Vec<u8>, octets: &[u8]) -> Result<(), AllocError>
    ensures { OnOk result (text.new.items ≡ text.old.items ++ 32 ∷ hexadecimal octets.now) }
{
    text.push(b' ')?;
    put_hexadecimal(text, octets)
}

/// Writes an error code as a further word.
pub fn put_code(text: &mut Vec<u8>, code: ErrCode) -> Result<(), AllocError>
    ensures { OnOk result (text.new.items ≡ text.old.items ++ 32 ∷ encode_lower (code.0 ∷ [])) }
{
    text.push(b' ')?;
    put_block(text, &[code.0])
}

/// Writes a mark as a further word.
pub fn put_mark(text: &mut Vec<u8>, mark: &Mark) -> Result<(), AllocError>
    ensures { OnOk result (text.new.items ≡ text.old.items ++ 32 ∷ mark_word mark.now) }
{
    match mark {
        Mark::Pass => put_word(text, b"."),
        Mark::Lost => put_word(text, b"x"),
        Mark::Damage { at, pattern } => {
            text.extend_from_slice(b" e")?;
            text.extend_from_slice(Buffer::new().format(*at).as_bytes())?;
            text.push(b':')?;
            put_hexadecimal(text, pattern.as_slice())
        }
    }
}
