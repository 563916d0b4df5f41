//! The accept list.
ghost use Rattle.std.specs.Prelude.{◌≡◌, ◌↔◌, ◌≤◌, [], true, length, IsErr, OnOk, OnErr};
ghost use Rattle.scan_init.specs.Addresses.{IsAcceptList, is_full_for, is_listed};
ghost use Rattle.scan_init.specs.Addresses.{with_address, without_address};

use crate::addresses::is_same_address;
use arrayvec::ArrayVec;
use ble_base::Address;
use std::marker::Model;

/// How many addresses the accept list can hold (Core 5.2, volume 4 part E, section 7.8.14; the
/// number is our choice).
pub const ACCEPT_LIST_SIZE: usize = 8;

/// Eight other addresses are in the accept list.
#[derive(Clone, Copy, Debug, PartialEq, Eq)]
pub struct ListFull;

/// The accept list, which Core 5.2 names White List (volume 6 part B, section 4.3.1): a set of at
/// most eight device addresses.
#[derive(Debug, Drop)]
pub struct AcceptList {
    addresses: ArrayVec<Address, ACCEPT_LIST_SIZE>,
}

impl Model for AcceptList {
    ghost use Rattle.std.specs.Prelude.{List};
    ghost use Rattle.ble_base.specs.declared.addresses.Address.{Address};
    ghost use Rattle.scan_init.specs.Addresses.{IsAcceptList};

    ghost Value = { List Address };

    ghost view = { λ l. l.addresses.items };

    ghost invariant = { λ l. IsAcceptList l.addresses.items };
}

/// Whether one of these addresses is this one.
fn is_listed(addresses: &[Address], address: &Address) -> bool
    ensures { result ≡ is_listed addresses.now address.now }
{
    addresses
        .iter()
        .any(|other| is_same_address(address, other))
}

/// These addresses but for this one.
fn without_address(addresses: &[Address], address: &Address) -> ArrayVec<Address, ACCEPT_LIST_SIZE>
    requires { length addresses.now ≤ 8 }
    ensures { result.items ≡ without_address addresses.now address.now }
{
    let mut kept = ArrayVec::new();
    for other in addresses {
        if !is_same_address(address, other) {
            kept.push(*other);
        }
    }
    kept
}

impl AcceptList {
    /// A list with no address.
    pub fn new() -> Self
        ensures { result ≡ [] }
    {
        AcceptList {
            addresses: ArrayVec::new(),
        }
    }

    /// Adds an address. Nothing changes where the list has it already. Refused where eight others
    /// are in the list, which is then unchanged.
    pub fn add(&mut self, address: Address) -> Result<(), ListFull>
        ensures refused { IsErr result ↔ (is_full_for self.old address ≡ true) }
        ensures ok { OnOk result (self.new ≡ with_address self.old address) }
        ensures err { OnErr result (self.new ≡ self.old) }
    {
        if self.has(address) {
            return Ok(());
        }
        if self.addresses.is_full() {
            return Err(ListFull);
        }
        self.addresses.push(address);
        Ok(())
    }

    /// Removes an address, if the list has it.
    pub fn remove(&mut self, address: Address)
        ensures { self.new ≡ without_address self.old address }
    {
        self.addresses = without_address(self.addresses.as_slice(), &address);
    }

    /// Removes all addresses.
    pub fn clear(&mut self)
        ensures { self.new ≡ [] }
    {
        self.addresses.clear();
    }

    /// Whether eight others are in the list, so that this address cannot be added.
    pub fn is_full_for(&self, address: Address) -> bool
        ensures { result ≡ is_full_for self.now address }
    {
        self.addresses.is_full() && !self.has(address)
    }

    /// Whether the list has this address.
    pub fn has(&self, address: Address) -> bool
        ensures listed { result ≡ is_listed self.now address }
        ensures set { IsAcceptList self.now }
    {
        is_listed(self.addresses.as_slice(), &address)
    }
}

/// A list with no address.
impl Default for AcceptList {
    ghost is_default = { λ list. list ≡ [] };

    fn default() -> Self {
        Self::new()
    }
}
