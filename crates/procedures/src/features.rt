//! Feature exchange (Core 5.2, volume 6 part B, section 5.1.4).
ghost use Rattle.std.specs.Prelude.{◌≡◌};
ghost use Rattle.procedures.specs.Features.{features_asked, features_taken};

use crate::outcome::{Outcome, answered, moved, unchanged};
use crate::table::ProcTable;
use ble_base::Kind;
use procedure_stages::awaited::awaits_features;
use procedure_stages::{Draft, Effect};

/// The request of the peer is taken: LL_FEATURE_REQ at a peripheral, LL_PERIPHERAL_FEATURE_REQ at a
/// central.
pub(crate) fn features_asked(table: &ProcTable, features: u64) -> Outcome
    ensures { result ≡ features_asked table.now features }
{
    answered(table, Draft::FeatureRsp).with_effect(Effect::PeerFeatures(features))
}

/// LL_FEATURE_RSP is taken.
pub(crate) fn features_taken(table: &ProcTable, features: u64) -> Outcome
    ensures { result ≡ features_taken table.now features }
{
    let progress = table.progress;
    if awaits_features(progress.own_exchange()) {
        moved(table, progress.without_own())
            .with_effect(Effect::PeerFeatures(features))
            .with_done(Kind::Features)
    } else {
        unchanged(table)
    }
}
