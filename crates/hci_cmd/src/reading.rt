//! Which command an opcode and the octets of its parameters are.
ghost use Rattle.std.specs.Prelude.{◌≡◌, ℕ, ◌↔◌, None};
ghost use Rattle.hci_cmd.specs.Command.{layout_of, command_of, HasOpcode, HasBothLengths, IfKnown};
ghost use Rattle.hci_cmd.specs.Command.{IsOpcode, IsWhole, IsCommand};
ghost use Rattle.hci_cmd.specs.declared.command.Command.{Command};

use crate::command::CmdRead;
use crate::rows::command;
use wire_fields::Fields;

/// The command with this opcode (the group in the upper six bits) whose parameters these octets
/// are, all of them (Core 5.2, volume 4 part E, section 5.4.1).
///
/// `BadLength` where the parameters of this command have another length, also where the first octet
/// of Host Number Of Completed Packets is another number than that of the handles that follow, or
/// the octets are more than the 255 that a packet holds.
#[tactic(auto, unfolding(crate::specs::Command::command_of))]
pub fn read(opcode: u16, body: &[u8]) -> CmdRead
    ensures value { result ≡ command_of opcode body.now }

    ensures known { IfKnown result (λ command. IsCommand command opcode body.now) }

    // No command has the opcode.
    ensures unknown { (result ≡ CmdRead.UnknownOpcode) ↔ (layout_of opcode ≡ None) }
    ensures no_command { (result ≡ CmdRead.UnknownOpcode)
        ↔ ((command : Command) → ¬ HasOpcode command opcode) }
    // Each command has an opcode.
    ensures every { (command : Command) → HasBothLengths command
        → (opcode : ℕ) × HasOpcode command opcode }

    ensures length { (result ≡ CmdRead.BadLength)
        ↔ (IsOpcode opcode × ¬ IsWhole opcode body.now) }

    // Nothing else is read from the opcode and the parameters of a command.
    ensures only { (command : Command) → IsCommand command opcode body.now
        → result ≡ CmdRead.Known command }
{
    command(opcode, Fields::new(body))
}
