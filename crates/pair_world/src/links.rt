//! The numbers of the links that a station knows.
ghost use Rattle.std.specs.Prelude.{◌≡◌};
ghost use Rattle.pair_world.specs.KnownLinks.{first_known, number_in, with_handle, with_note};

use ble_base::Note;
use std::marker::Model;

/// How many links a controller of a run can hold. Their connection handles are the numbers below.
pub(crate) const LINKS: usize = 3;

/// The numbers of the links that a station knows.
#[derive(Drop)]
pub(crate) struct LinkNumbers {
    /// The link that it began last, or whose CONNECT_IND it received last.
    last: u64,
    /// The link that it opened last under each connection handle.
    by_handle: [u64; LINKS],
}

impl Model for LinkNumbers {
    ghost use Rattle.pair_world.specs.KnownLinks.{KnownLinks};

    ghost Value = { KnownLinks };

    ghost view = { λ numbers. record { last = numbers.last; by_handle = numbers.by_handle } };
}

impl LinkNumbers {
    /// Those of a station that knows no link.
    pub(crate) fn new() -> Self
        ensures { result ≡ first_known }
    {
        LinkNumbers {
            last: 0,
            by_handle: [0; LINKS],
        }
    }

    /// The link that the station began or received last; 0 if there is none.
    pub(crate) fn last(&self) -> u64
        ensures { result ≡ self.now.last }
    {
        self.last
    }

    /// The link that the station opened last under a handle; 0 if there is none.
    pub(crate) fn by_handle(&self, handle: u16) -> u64
        ensures { result ≡ number_in self.now handle }
    {
        self.by_handle
            .get(usize::from(handle))
            .copied()
            .unwrap_or(0)
    }

    /// The station began this link, or received its CONNECT_IND.
    pub(crate) fn learn(&mut self, link: u64)
        ensures { self.new ≡ record self.old { last = link } }
    {
        self.last = link;
    }

    /// The station opened the last link under a handle.
    fn open(&mut self, handle: u16)
        ensures { self.new ≡ with_handle handle self.old }
    {
        let place = usize::from(handle);
        if place < LINKS {
            self.by_handle[place] = self.last;
        }
    }

    /// The station noted this.
    pub(crate) fn take_note(&mut self, note: &Note)
        ensures { self.new ≡ with_note self.old note.now }
    {
        if let Note::Opened { handle, .. } = note {
            self.open(*handle);
        }
    }
}
