//! That each command is one call on the open links, and what it may ask for. The bodies do nothing:
//! the contracts are the laws.
ghost use Rattle.std.specs.Prelude.{◌≡◌, ◌%◌, ◌^◌, ℕ, List, reverse, Some, None, Ok, Err, is_some};
ghost use Rattle.std.specs.Prelude.{if◌then◌else◌};
ghost use Rattle.hci_cmd.specs.declared.command.Command.{Command};
ghost use Rattle.open_links.specs.procedure_values.declared.asks.Ask.{Ask};
ghost use Rattle.open_links.specs.Hosts.{links_answered, links_asked, links_asked_map};
ghost use Rattle.open_links.specs.Hosts.{links_disconnected};
ghost use Rattle.open_links.specs.Keys.{links_keyed};
ghost use Rattle.open_links.specs.OpenLinks.{Links, OpenLink, facts_in, link_at};
ghost use Rattle.host_view.specs.Refusals.{first_refusal};
ghost use Rattle.host_view.specs.Status.{rows_of};
ghost use Rattle.host_view.specs.View.{View};
ghost use Rattle.link_commands.specs.declared.moments.Moment.{Moment};
ghost use Rattle.link_commands.specs.Commands.{AsksInRange, transmit_maximum, update_by};
ghost use Rattle.link_commands.specs.LinksCommanded.{links_commanded};

/// The links after a command are those after one call on them: the host ends the link, asks for a
/// procedure there, answers a request, has a key or none, or asks for a map on all links. For
/// features and a version that are known there is no call. A key of a host has its least significant
/// octet first, and one of a link its most significant one.
pub fn each_command_is_one_call()
    ensures disconnect { (handle reason : ℕ) (moment : Moment) (links : Links)
        → links_commanded (Command.Disconnect handle reason) moment links
        ≡ links_disconnected handle (record { 0 = reason }) moment.slot links }
    ensures version { (handle : ℕ) (moment : Moment) (links : Links) (link : OpenLink)
        → link_at handle links ≡ Some link
        → links_commanded (Command.ReadRemoteVersion handle) moment links
        ≡ (if is_some (facts_in link).peer.version then links
        else links_asked handle Ask.Version links) }
    ensures features { (handle : ℕ) (moment : Moment) (links : Links) (link : OpenLink)
        → link_at handle links ≡ Some link
        → links_commanded (Command.LeReadRemoteFeatures handle) moment links
        ≡ (if is_some (facts_in link).peer.features then links
        else links_asked handle Ask.Features links) }
    ensures length { (handle octets time : ℕ) (moment : Moment) (links : Links)
        → links_commanded (Command.LeSetDataLength handle octets time) moment links
        ≡ links_asked handle (Ask.Length (transmit_maximum octets time)) links }
    ensures update { (handle : ℕ) (moment : Moment) (min max latency timeout : ℕ) (lengths : List ℕ)
        (links : Links) (link : OpenLink) → link_at handle links ≡ Some link
        → links_commanded (Command.LeConnectionUpdate handle min max latency timeout lengths) moment
        links ≡ links_asked handle (update_by link.setup.link.role min max latency timeout) links }
    ensures phy { (handle all tx rx options : ℕ) (moment : Moment) (links : Links)
        → links_commanded (Command.LeSetPhy handle all tx rx options) moment links
        ≡ links_asked handle Ask.Phy links }
    ensures map { (map : ℕ) (moment : Moment) (links : Links)
        → links_commanded (Command.LeSetChannels map) moment links ≡ links_asked_map map links }
    ensures granted { (handle min max latency timeout : ℕ) (moment : Moment) (lengths : List ℕ)
        (links : Links)
        → links_commanded (Command.LeParamReply handle min max latency timeout lengths) moment links
        ≡ links_answered handle (Ok (Ask.Update max latency timeout)) links }
    ensures refused { (handle reason : ℕ) (moment : Moment) (links : Links)
        → links_commanded (Command.LeParamNegative handle reason) moment links
        ≡ links_answered handle (Err (record { 0 = reason % 256 })) links }
    ensures encrypted { (handle rand ediv : ℕ) (key : List ℕ) (moment : Moment) (links : Links)
        → links_commanded (Command.LeEnableEncryption handle rand ediv key) moment links
        ≡ links_asked handle
        (Ask.Encrypt (rand % 2 ^ 64) (ediv % 2 ^ 16) (reverse key) moment.skd_m moment.iv_m)
        links }
    ensures keyed { (handle : ℕ) (key : List ℕ) (moment : Moment) (links : Links)
        → links_commanded (Command.LeKeyReply handle key) moment links
        ≡ links_keyed handle (Some (reverse key)) moment.slot links }
    ensures keyless { (handle : ℕ) (moment : Moment) (links : Links)
        → links_commanded (Command.LeKeyNegative handle) moment links
        ≡ links_keyed handle None moment.slot links }
{}

/// What a command that the table of conditions accepts asks for is in its range: the parameters of
/// an update, the longest payload, a channel map, and the parameters with which a request of the
/// peer is granted.
pub fn accepted_commands_ask_in_range()
    ensures { (view : View) (command : Command)
        → first_refusal (rows_of view command) ≡ 0 → AsksInRange command }
{}
