//! Which PDUs of the peer a procedure that excludes no other awaits.
ghost use Rattle.std.specs.Prelude.{◌≡◌};
ghost use Rattle.procedure_stages.specs.Awaited.{awaits_features, awaits_lengths, is_version};
ghost use Rattle.procedure_stages.specs.Awaited.{is_own_encryption};

use crate::stages::{Exchange, OwnCentral};

/// Whether this end awaits LL_FEATURE_RSP.
pub fn awaits_features(own: Option<Exchange>) -> bool
    ensures { result ≡ awaits_features own }
{
    matches!(own, Some(Exchange::FeaturesSent))
}

/// Whether this end awaits LL_LENGTH_RSP.
pub fn awaits_lengths(own: Option<Exchange>) -> bool
    ensures { result ≡ awaits_lengths own }
{
    matches!(own, Some(Exchange::LengthSent))
}

/// Whether the own exchange of versions runs.
pub fn is_version(own: Option<Exchange>) -> bool
    ensures { result ≡ is_version own }
{
    matches!(own, Some(Exchange::VersionUnsent | Exchange::VersionSent))
}

/// Whether the own encryption of a central is in progress.
pub fn is_own_encryption(own: OwnCentral) -> bool
    ensures { result ≡ is_own_encryption own }
{
    matches!(own, OwnCentral::EncryptUnsent | OwnCentral::EncryptSent)
}
