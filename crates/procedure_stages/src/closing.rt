//! Whether a link is to end.
ghost use Rattle.std.specs.Prelude.{◌≡◌};
ghost use Rattle.procedure_stages.specs.Closing.{is_open, is_disconnecting, closed};

/// Whether the link is to end (Core 5.2, volume 6 part B, section 5.1.6).
#[derive(Clone, Copy)]
pub enum Closing {
    /// It is not.
    Open,
    /// LL_TERMINATE_IND was queued for want of a key, or taken.
    Closed,
    /// The Disconnect of the host was accepted.
    Disconnecting,
}

impl Closing {
    /// Whether no LL_TERMINATE_IND was queued or taken.
    pub fn is_open(self) -> bool
        ensures { result ≡ is_open self }
    {
        matches!(self, Closing::Open)
    }

    /// Whether a Disconnect of the host was accepted.
    pub fn is_disconnecting(self) -> bool
        ensures { result ≡ is_disconnecting self }
    {
        matches!(self, Closing::Disconnecting)
    }

    /// After LL_TERMINATE_IND was queued for want of a key, or taken.
    pub fn closed(self) -> Self
        ensures { result ≡ closed self }
    {
        match self {
            Closing::Open => Closing::Closed,
            _ => self,
        }
    }
}
