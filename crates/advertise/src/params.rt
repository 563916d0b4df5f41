//! The parameters of an advertiser.
ghost use Rattle.std.specs.Prelude.{◌≡◌};
ghost use Rattle.advertise.specs.Advertising.{is_connectable, is_directed, is_scannable};

use ble_base::Address;

/// ADV_IND, Advertising_Type 0: connectable and scannable, to anyone (Core 5.2, volume 4 part E,
/// section 7.8.5).
pub(crate) const UNDIRECTED: u8 = 0;

/// ADV_SCAN_IND, type 2: scannable, to anyone.
pub(crate) const SCANNABLE: u8 = 2;

/// ADV_DIRECT_IND with low duty cycle, type 4: connectable, to one device.
pub(crate) const DIRECTED: u8 = 4;

/// The interval that advertising begins with where the host has set none, in units of 0.625 ms.
const FIRST_INTERVAL: u16 = 0x0800;

/// All three channels.
const ALL_CHANNELS: u8 = 7;

/// What the host set of advertising (Core 5.2, volume 4 part E, section 7.8.5).
#[derive(Clone, Copy, Debug, PartialEq, Eq)]
pub struct AdvParams {
    /// The least interval, in units of 0.625 ms.
    pub interval: u16,
    /// Advertising_Type: 0 ADV_IND, 2 ADV_SCAN_IND, 3 ADV_NONCONN_IND, 4 ADV_DIRECT_IND with low
    /// duty cycle.
    pub kind: u8,
    /// The own address.
    pub own: Address,
    /// The device that directed advertising is to.
    pub target: Address,
    /// Bits 0, 1 and 2 for the channels 37, 38 and 39.
    pub channels: u8,
    /// The filter policy: with bit 0 scan requests, with bit 1 connection requests are taken only
    /// from the accept list. Directed advertising does not look at it.
    pub policy: u8,
}

/// Those of a host that has set none.
impl Default for AdvParams {
    ghost use Rattle.advertise.specs.Defaults.{first_params};

    ghost is_default = { λ params. params ≡ first_params };

    fn default() -> Self {
        AdvParams {
            interval: FIRST_INTERVAL,
            kind: UNDIRECTED,
            own: Address::default(),
            target: Address::default(),
            channels: ALL_CHANNELS,
            policy: 0,
        }
    }
}

/// Whether advertising of this type may be followed by a CONNECT_IND.
pub(crate) fn is_connectable(kind: u8) -> bool
    ensures { result ≡ is_connectable kind }
{
    kind == UNDIRECTED || kind == DIRECTED
}

/// Whether advertising of this type may be followed by a SCAN_REQ.
pub(crate) fn is_scannable(kind: u8) -> bool
    ensures { result ≡ is_scannable kind }
{
    kind == UNDIRECTED || kind == SCANNABLE
}

/// Whether advertising of this type is to one device.
pub(crate) fn is_directed(kind: u8) -> bool
    ensures { result ≡ is_directed kind }
{
    kind == DIRECTED
}
