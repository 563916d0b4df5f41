//! The kinds of control procedures, and the kind of each stage.
ghost use Rattle.std.specs.Prelude.{◌≡◌, option_map};
ghost use Rattle.exclusive_stages.specs.Kinds.{kind_of};
ghost use Rattle.procedure_stages.specs.Kinds.{begins, kind_of_exchange};
ghost use Rattle.procedure_stages.specs.Kinds.{kind_at_central, exchange_at_central};
ghost use Rattle.procedure_stages.specs.Kinds.{kind_at_peripheral, exchange_at_peripheral, role_of};
ghost use Rattle.procedure_stages.specs.Kinds.{own_kind, own_exchange, without_own, is_kind};
ghost use Rattle.procedure_stages.specs.Kinds.{is_timed};

use crate::stages::{Central, Exchange, OwnCentral, OwnPeripheral, Peripheral, Progress};
use ble_base::{Kind, Role};
use exclusive_stages::{CentralStage, Exclusive, PeripheralStage};
use procedure_values::asks::is_same_kind;

/// Whether an end of this role begins a procedure of this kind (Core 5.2, volume 6 part B, sections
/// 5.1.1 to 5.1.10).
pub fn begins(role: Role, kind: Kind) -> bool
    ensures { result ≡ begins role kind }
{
    match role {
        Role::Central => !matches!(kind, Kind::Request),
        Role::Peripheral => !matches!(kind, Kind::Update | Kind::Map | Kind::Encrypt),
    }
}

/// The same kind among all kinds of control procedures, if there is one.
pub(crate) fn kind_of(kind: Option<Exclusive>) -> Option<Kind>
    ensures { result ≡ option_map kind_of kind }
{
    match kind {
        Some(kind) => Some(kind.kind()),
        None => None,
    }
}

impl Exchange {
    /// The kind of the exchange.
    fn kind(self) -> Kind
        ensures { result ≡ kind_of_exchange self }
    {
        match self {
            Exchange::FeaturesUnsent | Exchange::FeaturesSent => Kind::Features,
            Exchange::VersionUnsent | Exchange::VersionSent => Kind::Version,
            Exchange::LengthUnsent | Exchange::LengthSent => Kind::Length,
        }
    }
}

impl OwnCentral {
    /// The kind of the procedure that the central began, if it began one.
    pub fn kind(self) -> Option<Kind>
        ensures { result ≡ kind_at_central self }
    {
        match self {
            OwnCentral::Exclusive(stage) => kind_of(stage.kind()),
            OwnCentral::Exchange(stage) => Some(stage.kind()),
            OwnCentral::EncryptUnsent | OwnCentral::EncryptSent => Some(Kind::Encrypt),
        }
    }

    /// The exchange that the central began, if it began one.
    fn exchange(self) -> Option<Exchange>
        ensures { result ≡ exchange_at_central self }
    {
        match self {
            OwnCentral::Exchange(stage) => Some(stage),
            _ => None,
        }
    }
}

impl OwnPeripheral {
    /// The kind of the procedure that the peripheral began, if it began one.
    pub fn kind(self) -> Option<Kind>
        ensures { result ≡ kind_at_peripheral self }
    {
        match self {
            OwnPeripheral::Exclusive(stage) => kind_of(stage.kind()),
            OwnPeripheral::Exchange(stage) => Some(stage.kind()),
        }
    }

    /// The exchange that the peripheral began, if it began one.
    fn exchange(self) -> Option<Exchange>
        ensures { result ≡ exchange_at_peripheral self }
    {
        match self {
            OwnPeripheral::Exchange(stage) => Some(stage),
            _ => None,
        }
    }
}

impl Progress {
    /// The role of the end.
    pub fn role(self) -> Role
        ensures { result ≡ role_of self }
    {
        match self {
            Progress::Central(_) => Role::Central,
            Progress::Peripheral(_) => Role::Peripheral,
        }
    }

    /// The kind of the procedure that this end began, if it began one.
    pub fn own_kind(self) -> Option<Kind>
        ensures { result ≡ own_kind self }
    {
        match self {
            Progress::Central(c) => c.own.kind(),
            Progress::Peripheral(p) => p.own.kind(),
        }
    }

    /// The exchange that this end began, if it began one.
    pub fn own_exchange(self) -> Option<Exchange>
        ensures { result ≡ own_exchange self }
    {
        match self {
            Progress::Central(c) => c.own.exchange(),
            Progress::Peripheral(p) => p.own.exchange(),
        }
    }

    /// The same after the procedure that this end began is over.
    pub fn without_own(self) -> Self
        ensures { result ≡ without_own self }
    {
        match self {
            Progress::Central(c) => Progress::Central(Central {
                own: OwnCentral::Exclusive(CentralStage::Idle),
                ..c
            }),
            Progress::Peripheral(p) => Progress::Peripheral(Peripheral {
                own: OwnPeripheral::Exclusive(PeripheralStage::Idle),
                ..p
            }),
        }
    }
}

/// Whether the own procedure is of this kind.
pub fn is_kind(own: Option<Kind>, kind: Kind) -> bool
    ensures { result ≡ is_kind own kind }
{
    match own {
        Some(own) => is_same_kind(own, kind),
        None => false,
    }
}

/// Whether the peer has a limited time to answer in a procedure of this kind.
pub fn is_timed(own: Option<Kind>) -> bool
    ensures { result ≡ is_timed own }
{
    match own {
        None | Some(Kind::Update | Kind::Map) => false,
        Some(_) => true,
    }
}
