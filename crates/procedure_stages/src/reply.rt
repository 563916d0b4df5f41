//! What is to be sent for a PDU of the peer.
ghost use Rattle.std.specs.Prelude.{◌≡◌};
ghost use Rattle.procedure_stages.specs.Queue.{has_reply, is_version_reply};

use procedure_values::{Draft, Rejection};

/// What is to be sent for a PDU of the peer.
#[derive(Clone, Copy)]
pub enum Reply {
    /// Nothing.
    Nothing,
    /// The rejection of the peer's procedure.
    Reject(Rejection),
    /// An answer.
    Answer(Draft),
}

impl Reply {
    /// Whether something is to be sent.
    pub fn is_some(&self) -> bool
        ensures { result ≡ has_reply self.now }
    {
        !matches!(self, Reply::Nothing)
    }

    /// Whether it is the own LL_VERSION_IND.
    pub fn is_version(&self) -> bool
        ensures { result ≡ is_version_reply self.now }
    {
        matches!(self, Reply::Answer(Draft::VersionInd))
    }
}
