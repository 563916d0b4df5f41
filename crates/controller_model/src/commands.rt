//! What the commands of a host ask of links. The body does nothing: the contract is the law.
ghost use Rattle.std.specs.Prelude.{◌≡◌};
ghost use Rattle.hci_cmd.specs.declared.command.Command.{Command};
ghost use Rattle.host_view.specs.Status.{status_of};
ghost use Rattle.host_view.specs.View.{View};
ghost use Rattle.link_commands.specs.Commands.{AsksInRange};

/// What an accepted command asks of links is in its range.
pub fn accepted_commands_ask_in_range()
    ensures { (view : View) (command : Command)
        → status_of view command ≡ 0 → AsksInRange command }
{}
