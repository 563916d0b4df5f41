//! Laws of the commands that are accepted. The bodies do nothing: the contracts are the laws.
ghost use Rattle.std.specs.Prelude.{◌≡◌, ◌≤◌, ℕ, true, false, List, None};
ghost use Rattle.ble_base.specs.ChannelMap.{IsMap};
ghost use Rattle.hci_cmd.specs.declared.command.Command.TheVariants.{HostBufferSize};
ghost use Rattle.hci_cmd.specs.declared.command.Command.TheVariants.{LeCreateConnection};
ghost use Rattle.hci_cmd.specs.declared.command.Command.TheVariants.{LeSetAdvParams};
ghost use Rattle.hci_cmd.specs.declared.command.Command.TheVariants.{LeSetChannels};
ghost use Rattle.hci_cmd.specs.declared.command.Command.TheVariants.{LeSetScanParams};
ghost use Rattle.host_view.specs.InRange.{is_supported, IsLinkRequest};
ghost use Rattle.host_view.specs.Refusals.{is_full};
ghost use Rattle.host_view.specs.Status.{status_of};
ghost use Rattle.host_view.specs.View.{View};

/// The parameters of an accepted command are in range: an advertiser and a scanner have an
/// interval, the type of advertising is one that is supported, the parameters of a link are those
/// that it may begin with, a map of channels is one, and the host has buffers that take a payload of
/// the least length.
pub fn accepted_parameters_are_in_range()
    ensures advertising_interval { (view : View) (min max kind own peer_kind : ℕ) (peer : List ℕ)
        (channels policy : ℕ)
        → status_of view (LeSetAdvParams min max kind own peer_kind peer channels policy) ≡ 0
        → 1 ≤ min }
    ensures advertising_type { (view : View) (min max kind own peer_kind : ℕ) (peer : List ℕ)
        (channels policy : ℕ)
        → status_of view (LeSetAdvParams min max kind own peer_kind peer channels policy) ≡ 0
        → is_supported kind ≡ true }
    ensures scanning { (view : View) (kind interval window own policy : ℕ)
        → status_of view (LeSetScanParams kind interval window own policy) ≡ 0 → 1 ≤ interval }
    ensures connecting { (view : View) (interval window policy peer_kind : ℕ) (peer : List ℕ)
        (own min max latency timeout : ℕ) (lengths : List ℕ)
        → status_of view (LeCreateConnection interval window policy peer_kind peer own min max
        latency timeout lengths) ≡ 0
        → IsLinkRequest interval max latency timeout }
    ensures channels { (view : View) (map : ℕ)
        → status_of view (LeSetChannels map) ≡ 0 → IsMap map }
    ensures buffers { (view : View) (acl_length sco_length acl_count sco_count : ℕ)
        → status_of view (HostBufferSize acl_length sco_length acl_count sco_count) ≡ 0
        → (27 ≤ acl_length) × (1 ≤ acl_count) }
{}

/// LE Create Connection is accepted only where no link is being made, another link can be held, and
/// there is an access address for it.
pub fn accepted_connection_can_be_made()
    ensures initiating { (view : View) (interval window policy peer_kind : ℕ) (peer : List ℕ)
        (own min max latency timeout : ℕ) (lengths : List ℕ)
        → status_of view (LeCreateConnection interval window policy peer_kind peer own min max
        latency timeout lengths) ≡ 0
        → view.initiating ≡ None }
    ensures room { (view : View) (interval window policy peer_kind : ℕ) (peer : List ℕ)
        (own min max latency timeout : ℕ) (lengths : List ℕ)
        → status_of view (LeCreateConnection interval window policy peer_kind peer own min max
        latency timeout lengths) ≡ 0
        → is_full view ≡ false }
    ensures address { (view : View) (interval window policy peer_kind : ℕ) (peer : List ℕ)
        (own min max latency timeout : ℕ) (lengths : List ℕ)
        → status_of view (LeCreateConnection interval window policy peer_kind peer own min max
        latency timeout lengths) ≡ 0
        → view.has_address ≡ true }
{}
