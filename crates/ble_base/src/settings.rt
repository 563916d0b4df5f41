//! The settings of a controller.
ghost use Rattle.std.specs.Prelude.{◌≡◌};

use crate::RANDOM_WORDS;
use arrayvec::ArrayVec;

/// The settings that a controller starts with.
#[derive(Debug, PartialEq, Eq, Default, Drop)]
pub struct Config {
    /// The public device address, least significant octet first.
    pub public: [u8; 6],
    /// The access address at which the search for those of new links begins.
    pub cursor: u32,
    /// The random words that the controller draws, in this order: 1 to 64 words.
    pub words: ArrayVec<u64, RANDOM_WORDS>,
}

impl Config {
    /// A copy of these settings. It takes no memory.
    pub fn copy(&self) -> Config
        ensures { result ≡ self.now }
    {
        let mut words = ArrayVec::new();
        let _ = words.try_extend_from_slice(self.words.as_slice());
        Config {
            public: self.public,
            cursor: self.cursor,
            words,
        }
    }
}
