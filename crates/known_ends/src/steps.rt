//! What a host asks of an open link by a command. The bodies do nothing: the contracts are the
//! laws.
ghost use Rattle.std.specs.Prelude.{◌≡◌, ℕ, List, [], ◌∷◌, Some, None};
ghost use Rattle.hci_cmd.specs.declared.command.Command.{Command};
ghost use Rattle.link_model.specs.Step.{Step as EndStep};
ghost use Rattle.host_asks.specs.link_pairs.Hosts.{MayHost};
ghost use Rattle.controller_model.specs.open_links.OpenLinks.{OpenLink, facts_in, link_at};
ghost use Rattle.controller_model.specs.link_commands.Commands.{step_on};
ghost use Rattle.controller_model.specs.Commands.{moment_of};
ghost use Rattle.controller_model.specs.Facts.{Setup};
ghost use Rattle.controller_model.specs.Host.{commands_accepted_after};
ghost use Rattle.controller_model.specs.Side.{facts_of};
ghost use Rattle.controller_model.specs.Step.{Step, HostOctet};

/// Where an octet of the host completes a command that is accepted, the step that the command asks
/// of an open end may come there, as long as no procedure ended the link, however many links the
/// controller holds (Core 5.2, volume 4 part E, sections 7.1 and 7.8; volume 6 part B, section
/// 5.1).
pub fn what_hosts_ask_may_come()
    ensures { (setup : Setup) (past : List Step) (octet handle : ℕ) (link : OpenLink)
        (command : Command) (step : EndStep)
        → link_at handle (facts_of setup past).links ≡ Some link
        → (facts_in link).control.ends ≡ None
        → commands_accepted_after (facts_of setup past) (HostOctet octet) ≡ command ∷ []
        → step_on handle command (moment_of setup (facts_of setup past)) link.setup.link.role
        (facts_in link).peer ≡ Some step
        → MayHost step (facts_in link) }
{}
