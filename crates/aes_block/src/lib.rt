//! AES-128 on single blocks, as FIPS 197 defines it: keys and blocks are 16 octets, most significant
//! first. It encrypts only: the link needs no decryption.
#![tactic(auto)]

ghost use Rattle.std.specs.Prelude.{◌≡◌};
ghost use Rattle.aes_block.specs.Cipher.{cipher};

mod columns;
mod key_schedule;
mod rounds;
mod tables;

use std::marker::Model;

/// The number of rounds for a key of 16 octets (FIPS 197, section 5).
const LAST_ROUND: usize = 10;

/// A key with its expansion. Contracts see the key: 16 octets, most significant first.
#[derive(Drop)]
pub struct Aes {
    words: [u32; 44],
}

impl Model for Aes {
    ghost use Rattle.std.specs.Prelude.{◌≡◌, ℕ, List};
    ghost use Rattle.aes_block.specs.KeyExpansion.{key_expansion};
    ghost use Rattle.aes_block.specs.Words.{state_octets, octet_words};

    ghost Value = { List ℕ };

    ghost view = { λ a. state_octets a.words };

    ghost invariant = { λ a. octet_words a.words ≡ key_expansion (state_octets a.words) };
}

impl Aes {
    /// Expands a key of 16 octets, most significant first (FIPS 197, section 5.2).
    pub fn new(key: &[u8; 16]) -> Aes
        ensures { result ≡ key.now }
    {
        Aes {
            words: key_schedule::expand(key),
        }
    }

    /// The cipher text of a block; both are 16 octets, most significant first (FIPS 197, section
    /// 5.1).
    pub fn encrypt(&self, block: &[u8; 16]) -> [u8; 16]
        ensures { result ≡ cipher self.now block.now }
    {
        let words = &self.words;
        let mut state = rounds::add(columns::read(block), columns::round_key(words, 0));
        'rounds: for round in 1..LAST_ROUND {
            let next = rounds::full(state, columns::round_key(words, round));
            state = next;
        }
        columns::write(rounds::last(state, columns::round_key(words, LAST_ROUND)))
    }
}
