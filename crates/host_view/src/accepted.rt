//! What an accepted command changes.
ghost use Rattle.std.specs.Prelude.{◌≡◌};
ghost use Rattle.hci_cmd.specs.declared.command.Command.TheVariants.{LeAddToList, LeSetChannels};
ghost use Rattle.host_view.specs.View.{first_view};
ghost use Rattle.host_view.specs.Status.{status_of};
ghost use Rattle.host_view.specs.Changes.{after_completed, after_counts, link_changed_by, view_after};
ghost use Rattle.scan_init.specs.Addresses.{with_address};
ghost use Rattle.host_view.specs.Status.{named_address};

use crate::changes::{LinkChange, change_links};
use crate::connecting::named_address;
use crate::laws::accepted_parameters_are_in_range;
use crate::links::Link;
use crate::view::HostView;
use ble_base::{ChannelMap, Kind};
use hci_cmd::{Command, HandleCount};

/// Takes from the links the packets that the host has taken.
fn take_packets(links: &mut [Option<Link>; 6], counts: &[HandleCount])
    ensures { links.new ≡ after_counts links.old counts.now }
{
    for pair in counts {
        change_links(links, pair.handle, LinkChange::Taken(pair.count));
    }
}

impl HostView {
    fn complete(&mut self, counts: &[HandleCount])
        ensures { self.new ≡ after_completed self.old counts.now }
    {
        if self.flow.on {
            take_packets(&mut self.links, counts);
        }
    }

    /// Takes an address into the accept list, where it is not there yet.
    fn accept(&mut self, kind: u8, octets: &[u8; 6])
        requires { status_of self.old (LeAddToList kind octets.now) ≡ 0 }
        ensures { self.new ≡ record self.old {
          accepted
              = with_address self.old.accepted (named_address kind octets.now);
        } }
    {
        let Ok(()) = self.accepted.add(named_address(kind, octets)) else {
            unreachable!()
        };
    }

    /// Takes a map of channels.
    fn set_channels(&mut self, map: u64)
        requires { status_of self.old (LeSetChannels map) ≡ 0 }
        ensures { self.new ≡ record self.old { map = map } }
    {
        if let Some(map) = ChannelMap::new(map) {
            self.map = map;
        }
    }

    /// Starts again, as after a Reset: with all defaults and no link.
    fn reset(&mut self)
        ensures { self.new ≡ first_view self.old.limit self.old.has_address }
    {
        *self = HostView::initial(self.limit, self.has_address);
    }

    /// Takes an accepted command that changes a link, or nothing.
    fn link_command(&mut self, command: &Command)
        ensures { self.new ≡ link_changed_by command.now self.old }
    {
        match command {
            Command::Disconnect { handle, .. } => {
                self.change_link(*handle, LinkChange::Disconnecting);
            }
            Command::ReadRemoteVersion { handle } => {
                self.change_link(*handle, LinkChange::Asks(Kind::Version));
            }
            Command::LeConnectionUpdate { handle, .. } => {
                self.change_link(*handle, LinkChange::AsksUpdate);
            }
            Command::LeReadRemoteFeatures { handle } => {
                self.change_link(*handle, LinkChange::Asks(Kind::Features));
            }
            Command::LeEnableEncryption { handle, .. } => {
                self.change_link(*handle, LinkChange::Asks(Kind::Encrypt));
            }
            Command::LeKeyReply { handle, .. } => self.change_link(*handle, LinkChange::Keyed),
            Command::LeKeyNegative { handle } => {
                self.change_link(*handle, LinkChange::Key { waits: false });
            }
            Command::LeParamReply { handle, .. } | Command::LeParamNegative { handle, .. } => {
                self.change_link(*handle, LinkChange::Parameters { waits: false });
            }
            Command::LeSetDataLength { handle, .. } => {
                self.change_link(*handle, LinkChange::Asks(Kind::Length));
            }
            Command::LeSetPhy { handle, .. } => {
                self.change_link(*handle, LinkChange::Asks(Kind::Phy));
            }
            _ => {}
        }
    }

    /// Takes a command that is accepted: one whose status in this view is success.
    #[tactic(auto, unfolding(crate::specs::Changes::view_after))]
    pub fn command(&mut self, command: &Command)
        requires { status_of self.old command.now ≡ 0 }
        ensures { self.new ≡ view_after self.old command.now }
    {
        match command {
            Command::SetEventMask { mask } => self.mask = *mask,
            Command::LeSetEventMask { mask } => self.le_mask = *mask,
            Command::Reset => self.reset(),
            Command::SetHostFlow { value } => self.flow.on = *value == 1,
            Command::HostBufferSize {
                acl_length,
                acl_count,
                ..
            } => {
                accepted_parameters_are_in_range();
                self.flow.acl_length = *acl_length;
                self.flow.acl_count = *acl_count;
            }
            Command::HostCompleted { counts } => self.complete(counts.as_slice()),
            Command::LeSetRandomAddress { address } => self.random = Some(*address),
            Command::LeSetAdvParams {
                kind,
                own,
                policy,
                ..
            } => {
                self.advertising.kind = *kind;
                self.advertising.own = *own;
                self.advertising.policy = *policy;
            }
            Command::LeSetAdvEnable { value } => self.advertising.on = *value == 1,
            Command::LeSetScanParams { own, policy, .. } => {
                self.scanning.own = *own;
                self.scanning.policy = *policy;
            }
            Command::LeSetScanEnable { value, .. } => self.scanning.on = *value == 1,
            Command::LeCreateConnection { policy, .. } => self.initiating = Some(*policy),
            Command::LeCreateCancel => self.initiating = None,
            Command::LeClearList => self.accepted.clear(),
            Command::LeAddToList { kind, address } => self.accept(*kind, address),
            Command::LeRemoveFromList { kind, address } => {
                self.accepted.remove(named_address(*kind, address));
            }
            Command::LeSetChannels { map } => self.set_channels(*map),
            _ => self.link_command(command),
        }
    }
}
