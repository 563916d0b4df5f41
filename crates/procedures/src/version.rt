//! Version exchange (Core 5.2, volume 6 part B, section 5.1.5).
ghost use Rattle.std.specs.Prelude.{◌≡◌};
ghost use Rattle.procedures.specs.Version.{version_reply, progress_with_version, version_done};
ghost use Rattle.procedures.specs.Version.{version_taken};

use crate::outcome::{Outcome, moved};
use crate::table::ProcTable;
use ble_base::Kind;
use procedure_stages::awaited::is_version;
use procedure_stages::{Draft, Effect, Progress, Reply, Step};

/// What answers the peer's LL_VERSION_IND: the own one, unless it was queued already.
fn version_reply(used: bool) -> Reply
    ensures { result ≡ version_reply used }
{
    if used {
        Reply::Nothing
    } else {
        Reply::Answer(Draft::VersionInd)
    }
}

/// The procedures after the peer's LL_VERSION_IND was taken.
fn progress_with_version(progress: Progress) -> Progress
    ensures { result ≡ progress_with_version progress }
{
    if is_version(progress.own_exchange()) {
        progress.without_own()
    } else {
        progress
    }
}

/// The own exchange that the peer's LL_VERSION_IND completes, also one that is only wanted.
fn version_done(table: &ProcTable) -> Option<Kind>
    ensures { result ≡ version_done table.now }
{
    if is_version(table.progress.own_exchange()) || table.wanted.has(Kind::Version) {
        Some(Kind::Version)
    } else {
        None
    }
}

/// LL_VERSION_IND is taken.
pub(crate) fn version_taken(table: &ProcTable, version: u8, company: u16, sub: u16) -> Outcome
    ensures { result ≡ version_taken table.now version company sub }
{
    let outcome = moved(table, progress_with_version(table.progress)).with_effect(
        Effect::PeerVersion {
            version,
            company,
            sub,
        },
    );
    Outcome {
        reply: version_reply(table.version_used),
        step: Step {
            done: version_done(table),
            ..outcome.step
        },
        ..outcome
    }
}
