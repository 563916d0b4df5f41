//! Device addresses.
ghost use Rattle.std.specs.Prelude.{◌≡◌};
ghost use Rattle.scan_init.specs.Addresses.{is_same_address};

use ble_base::Address;

/// Whether two addresses are of one type and have the same octets.
pub fn is_same_address(one: &Address, other: &Address) -> bool
    ensures { result ≡ is_same_address one.now other.now }
{
    one.random == other.random && one.octets == other.octets
}
