//! What may use the radio.
ghost use Rattle.std.specs.Prelude.{◌≡◌};
ghost use Rattle.slot_plan.specs.Winner.{class_of, handle_of};

/// What may use the radio of a controller in a slot.
#[derive(Clone, Copy, Debug, PartialEq, Eq, Default)]
pub enum Activity {
    /// A connection event of the link with this connection handle.
    Link(u16),
    /// The advertiser.
    Advertise,
    /// The scanner.
    #[default]
    Scan,
    /// The initiator.
    Initiate,
}

impl Activity {
    /// Its class. Of two classes the lower comes first.
    pub(crate) fn class(self) -> u8
        ensures { result ≡ class_of self }
    {
        match self {
            Activity::Link(_) => 0,
            Activity::Advertise => 1,
            Activity::Scan | Activity::Initiate => 2,
        }
    }

    /// What it goes by within its class: a link by its connection handle, a scanner as 0 and an
    /// initiator as 1.
    pub(crate) fn handle(self) -> u16
        ensures { result ≡ handle_of self }
    {
        match self {
            Activity::Link(handle) => handle,
            Activity::Advertise | Activity::Scan => 0,
            Activity::Initiate => 1,
        }
    }
}
