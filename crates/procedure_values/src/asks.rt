//! What a host asks of a link: the procedures that it wants, each with its values, and their kinds.
ghost use Rattle.std.specs.Prelude.{◌≡◌};
ghost use Rattle.procedure_values.specs.Asks.{kind_of_ask, is_same_kind};

use ble_base::{ChannelMap, Kind};

/// A control procedure that the host of this end wants, with its values (Core 5.2, volume 6 part B,
/// section 5.1). The central begins an update, a map and an encryption; the peripheral begins a
/// request; either end begins the others.
#[derive(Clone, Copy)]
pub enum Ask {
    /// A connection update (section 5.1.1): interval in 1.25 ms, latency in connection events,
    /// timeout in 10 ms.
    Update {
        interval: u16,
        latency: u16,
        timeout: u16,
    },
    /// A connection parameters request (section 5.1.7), with the units of `Update`.
    Request {
        min: u16,
        max: u16,
        latency: u16,
        timeout: u16,
    },
    /// A channel map update (section 5.1.2).
    Map(ChannelMap),
    /// A PHY update (section 5.1.10).
    Phy,
    /// A feature exchange (section 5.1.4).
    Features,
    /// A version exchange (section 5.1.5).
    Version,
    /// A data length update (section 5.1.9): the most octets of a payload that this end transmits,
    /// 27 to 251.
    Length {
        tx: u16,
    },
    /// An encryption start, after a pause where the link is encrypted (section 5.1.3): the random
    /// number and the encrypted diversifier of the key, the long term key with its most significant
    /// octet first, and the central's parts of the session key diversifier and of the
    /// initialization vector.
    Encrypt {
        rand: u64,
        ediv: u16,
        ltk: [u8; 16],
        skd_m: u64,
        iv_m: u32,
    },
}

/// What is in the unused places of a list of wants, which no reader sees.
impl Default for Ask {
    ghost use Rattle.procedure_values.specs.declared.asks.Ask.TheVariants.{Features};

    ghost is_default = { λ ask. ask ≡ Features };

    fn default() -> Self {
        Ask::Features
    }
}

impl Ask {
    /// The kind of the procedure.
    pub fn kind(&self) -> Kind
        ensures { result ≡ kind_of_ask self.now }
    {
        match self {
            Ask::Update { .. } => Kind::Update,
            Ask::Request { .. } => Kind::Request,
            Ask::Map(_) => Kind::Map,
            Ask::Phy => Kind::Phy,
            Ask::Features => Kind::Features,
            Ask::Version => Kind::Version,
            Ask::Length { .. } => Kind::Length,
            Ask::Encrypt { .. } => Kind::Encrypt,
        }
    }
}

/// Whether two kinds are the same.
pub fn is_same_kind(a: Kind, b: Kind) -> bool
    ensures { result ≡ is_same_kind a b }
{
    a == b
}
