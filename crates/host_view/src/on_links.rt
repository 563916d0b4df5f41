//! Which commands ask something of the ends of links.
ghost use Rattle.std.specs.Prelude.{◌≡◌};
ghost use Rattle.host_view.specs.OnLinks.{asks_links};

use crate::view::HostView;
use hci_cmd::Command;

impl HostView {
    /// Whether a command asks something of the end of one link, or of the ends of all links of a
    /// central (Core 5.2, volume 4 part E, sections 7.1 and 7.8).
    pub fn asks_links(&self, command: &Command) -> bool
        ensures { result ≡ asks_links self.now command.now }
    {
        match command {
            Command::Disconnect { .. }
            | Command::ReadRemoteVersion { .. }
            | Command::LeReadRemoteFeatures { .. }
            | Command::LeSetDataLength { .. }
            | Command::LeConnectionUpdate { .. }
            | Command::LeSetChannels { .. }
            | Command::LeSetPhy { .. }
            | Command::LeParamReply { .. }
            | Command::LeParamNegative { .. }
            | Command::LeEnableEncryption { .. }
            | Command::LeKeyReply { .. }
            | Command::LeKeyNegative { .. } => true,
            _ => false,
        }
    }
}
