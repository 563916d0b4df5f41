//! The longest payloads of a link (Core 5.2, volume 6 part B, section 4.5.10).
ghost use Rattle.std.specs.Prelude.{◌≡◌};
ghost use Rattle.procedure_values.specs.Limits.{first_lengths, rx_of, tx_of, with_own_tx};
ghost use Rattle.procedure_values.specs.Limits.{with_peer, lengths_asked};
ghost use Rattle.procedure_values.specs.Wants.{IsAsk};

use crate::asks::Ask;
use crate::values::PayloadMax;

/// The most octets of a payload before any length exchange (Core 5.2, volume 6 part B, section
/// 4.5.10).
const FIRST_OCTETS: u16 = 27;

/// The most octets of a payload that each end receives and transmits, as this end knows them.
#[derive(Clone, Copy)]
pub struct Lengths {
    pub own_rx: PayloadMax,
    pub own_tx: PayloadMax,
    pub peer_rx: u16,
    pub peer_tx: u16,
}

impl Lengths {
    /// The lengths of a new link, of which this end receives at most `own_rx` octets.
    pub fn first(own_rx: PayloadMax) -> Self
        ensures { result ≡ first_lengths own_rx }
    {
        Lengths {
            own_rx,
            own_tx: PayloadMax::new(FIRST_OCTETS),
            peer_rx: FIRST_OCTETS,
            peer_tx: FIRST_OCTETS,
        }
    }

    /// The most octets that this end receives: no more than the peer transmits.
    pub fn rx(&self) -> u16
        ensures { result ≡ rx_of self.now }
    {
        self.own_rx.octets().min(self.peer_tx)
    }

    /// The most octets that this end transmits: no more than the peer receives.
    pub fn tx(&self) -> u16
        ensures { result ≡ tx_of self.now }
    {
        self.own_tx.octets().min(self.peer_rx)
    }

    /// With another limit on what this end transmits.
    fn with_own_tx(self, tx: PayloadMax) -> Self
        ensures { result ≡ with_own_tx self tx }
    {
        Lengths { own_tx: tx, ..self }
    }

    /// With the limits that the peer gave.
    pub fn with_peer(self, rx: u16, tx: u16) -> Self
        ensures { result ≡ with_peer self rx tx }
    {
        Lengths {
            peer_rx: rx,
            peer_tx: tx,
            ..self
        }
    }
}

/// The longest payloads after the host asked this.
pub fn lengths_asked(ask: &Ask, lengths: Lengths) -> Lengths
    requires { IsAsk ask.now }
    ensures { result ≡ lengths_asked ask.now lengths }
{
    match *ask {
        Ask::Length { tx } => lengths.with_own_tx(PayloadMax::new(tx)),
        _ => lengths,
    }
}
