//! The control procedures of a link.

/// A control procedure of a link (Core 5.2, volume 6 part B, section 5.1).
#[derive(Clone, Copy, Debug, PartialEq, Eq, Default)]
pub enum Kind {
    /// Connection Update, by the central (section 5.1.1).
    #[default]
    Update,
    /// Connection Parameters Request, by the peripheral (section 5.1.7).
    Request,
    /// Channel Map Update, by the central (section 5.1.2).
    Map,
    /// PHY Update (section 5.1.10).
    Phy,
    /// Feature Exchange (section 5.1.4).
    Features,
    /// Version Exchange (section 5.1.5).
    Version,
    /// Data Length Update (section 5.1.9).
    Length,
    /// Encryption Start, and a pause before it (section 5.1.3).
    Encrypt,
}
