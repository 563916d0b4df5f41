//! The view of a host and the open links of its controller. The bodies do nothing: the contracts
//! are the laws.
ghost use Rattle.std.specs.Prelude.{◌≡◌, ℕ, true, Some, None};
ghost use Rattle.hci_cmd.specs.declared.command.Command.{Command};
ghost use Rattle.link_commands.specs.open_links.OpenLinks.{Links, OpenLink, facts_in, link_at};
ghost use Rattle.host_view.specs.View.{View};
ghost use Rattle.host_view.specs.Status.{status_of};
ghost use Rattle.link_commands.specs.declared.moments.Moment.{Moment};
ghost use Rattle.link_commands.specs.Commands.{host_step_of, is_about};
ghost use Rattle.host_asks.specs.Commands.{MayComeIf, WordsFit};
ghost use Rattle.link_commands.specs.LinksCommanded.{links_commanded, view_commanded_on};
ghost use Rattle.host_asks.specs.OpenEnds.{KnowsOpenEnds};
ghost use Rattle.host_asks.specs.Views.{leaves_other_links};

/// Where the view knows the ends of all open links, each step that an accepted command makes on
/// them may come, until a procedure ends the link, if the words that a central draws fit
/// LL_ENC_REQ; and the view knows the ends after it, where the command is not Reset or Host Number
/// Of Completed Packets.
pub fn all_links_stay_known()
    ensures may { (view : View) (command : Command) (handle : ℕ) (moment : Moment) (links : Links)
        (link : OpenLink) → status_of view command ≡ 0
        → is_about handle command ≡ true → KnowsOpenEnds view links
        → link_at handle links ≡ Some link → (facts_in link).control.ends ≡ None
        → WordsFit moment → MayComeIf (host_step_of command moment link.setup.link.role (facts_in link).peer)
        (facts_in link) }
    ensures keeps { (view : View) (command : Command) (moment : Moment) (links : Links)
        → status_of view command ≡ 0 → leaves_other_links command ≡ true
        → KnowsOpenEnds view links
        → KnowsOpenEnds (view_commanded_on view command links)
        (links_commanded command moment links) }
{}
