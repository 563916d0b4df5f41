//! Signs for what is on or off.
ghost use Rattle.std.specs.Prelude.{◌≡◌};
ghost use Rattle.line_words.specs.Signs.{sign_value};

/// Whether a sign is a plus, for on. None if it is neither a plus nor a minus.
pub fn read_sign(octet: u8) -> Option<bool>
    ensures { result ≡ sign_value octet }
{
    match octet {
        b'+' => Some(true),
        b'-' => Some(false),
        _ => None,
    }
}
