//! Verdicts on packets.

/// What the other side receives of a packet (our choice).
#[derive(Clone, Copy, Debug, PartialEq, Eq, Default)]
pub enum Verdict {
    /// Nothing with the expected access address was received: the packet was lost, its access
    /// address was another, or the other side did not listen on its channel.
    #[default]
    Missed,
    /// The access address was right; the rest was not a whole PDU with its CRC.
    Broken,
    /// The CRC was right; the message integrity check of the encrypted payload was not.
    Forged,
    /// The PDU was received.
    Good,
}
