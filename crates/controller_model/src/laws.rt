//! Laws of one controller. The bodies only call the laws that they rest on: the contracts are the
//! laws.
ghost use Rattle.std.specs.Prelude.{◌≡◌, ◌≢◌, ◌↔◌, ◌<◌, ◌≤◌, ◌+◌, ◌^◌, ◌⊎◌, ℕ, Bool, true, false};
ghost use Rattle.std.specs.Prelude.{if◌then◌else◌, is_some, None, IsSome};
ghost use Rattle.std.specs.Prelude.{All, List, [], ◌∷◌, ◌++◌, Some, length, map};
ghost use Rattle.std.specs.List.{Contains, list_any};
ghost use Rattle.ble_base.specs.Bits.{has_bit};
ghost use Rattle.ble_base.specs.declared.notes.Note.TheVariants.{Enter, Shut, Up};
ghost use Rattle.ble_base.specs.declared.verdicts.Verdict.TheVariants.{Good};
ghost use Rattle.adv_pdu.specs.declared.pdu.AdvPdu.{AdvPdu};
ghost use Rattle.adv_pdu.specs.Pdu.{IsPdu};
ghost use Rattle.adv_pdu.specs.Ranges.{is_in_range};
ghost use Rattle.h4_frames.specs.Frames.{frames};
ghost use Rattle.h4_frames.specs.declared.packet.HostPacket.TheVariants.{Acl};
ghost use Rattle.h4_frames.specs.declared.packet.HostPacket.TheVariants.{Command as HostCommand};
ghost use Rattle.h4_frames.specs.declared.packet.Fed.TheVariants.{Packet, LostSync};
ghost use Rattle.wire_fields.specs.Field.{little_endian};
ghost use Rattle.hci_cmd.specs.declared.command.Command.{Command};
ghost use Rattle.hci_cmd.specs.declared.command.Command.TheVariants.{LeRand, LeSetAdvParams, Reset};
ghost use Rattle.hci_cmd.specs.declared.command.CmdRead.{CmdRead};
ghost use Rattle.hci_cmd.specs.declared.command.CmdRead.TheVariants.{Known};
ghost use Rattle.hci_evt.specs.Event.{written};
ghost use Rattle.hci_evt.specs.declared.event.Event.{Event};
ghost use Rattle.hci_evt.specs.declared.event.Event.TheVariants.{HardwareError};
ghost use Rattle.host_view.specs.Status.{status_of};
ghost use Rattle.host_view.specs.View.{View};
ghost use Rattle.host_view.specs.declared.view.TheConstants.{MOST_LINKS};
ghost use Rattle.advertise.specs.Advertising.{AdvertiserFacts};
ghost use Rattle.link_commands.specs.open_links.link_model.declared.setup.LinkSetup.{LinkSetup};
ghost use Rattle.link_commands.specs.open_links.OpenLinks.{free_from, link_at};
ghost use Rattle.host_view.specs.scan_init.Access.{nth_access};
ghost use Rattle.host_view.specs.scan_init.Initiating.{InitiatorFacts};
ghost use Rattle.host_view.specs.scan_init.Windows.{slots_of};
ghost use Rattle.slot_plan.specs.Holding.{is_held_in};
ghost use Rattle.controller_model.specs.declared.doing.Doing.TheVariants.{Connects, Initiates};
ghost use Rattle.controller_model.specs.Step.{Step, HostOctet, TurnBegins};
ghost use Rattle.controller_model.specs.Facts.{Setup, Facts, Sends};
ghost use Rattle.controller_model.specs.Answers.{AreOneAnswer, HasNoAnswer, IsAnswerTo, answer_to};
ghost use Rattle.controller_model.specs.Answers.{complete_answer, next_word};
ghost use Rattle.controller_model.specs.Commands.{facts_commanded};
ghost use Rattle.controller_model.specs.Connecting.{SendsEach};
ghost use Rattle.controller_model.specs.Entering.{IsEntered, IsInEvent, begins_turn};
ghost use Rattle.controller_model.specs.Events.{notes_of_events};
ghost use Rattle.controller_model.specs.Heard.{answers_by_connecting, fields_sent, link_to};
ghost use Rattle.controller_model.specs.Packets.{advertising_packet, pdu_heard, verdict_advertising};
ghost use Rattle.controller_model.specs.Shutting.{IsShut};
ghost use Rattle.controller_model.specs.Side.{facts_after, facts_of, notes_after, notes_fed};
ghost use Rattle.controller_model.specs.Side.{notes_of, result_of};
ghost use Rattle.controller_model.specs.Sent.{IsAdvertisingPacket, IsLinkPacket};
ghost use Rattle.controller_model.specs.Intervals.{IsLeftOn, doing_at, doing_between, facts_in_turn};
ghost use Rattle.controller_model.specs.Intervals.{place_within, turns_from};
ghost use Rattle.controller_model.specs.Host.{HeardNothing, commands_accepted, commands_accepted_after};
ghost use Rattle.controller_model.specs.Host.{commands_of, host_octets};
ghost use Rattle.controller_model.specs.Host.{is_answered, opcodes_in, opcodes_of, words_answered, words_drawn};
ghost use Rattle.controller_model.specs.Host.{with_answer};
ghost use Rattle.controller_model.specs.Notes.{HadNoLink, HasHandleBelow};
ghost use Rattle.controller_model.specs.Notes.{answers_among, answers_of};
ghost use Rattle.controller_model.specs.Notes.{as_two_octets, one_further, without_le_events};

/// With one more step, a controller holds what that step makes of what it held, and has noted what
/// that step adds to what it had noted.
pub fn past_grows()
    ensures facts { (setup : Setup) (past : List Step) (step : Step)
        → facts_of setup (past ++ step ∷ []) ≡ facts_after setup (facts_of setup past) step }
    ensures notes { (setup : Setup) (past : List Step) (step : Step)
        → notes_of setup (past ++ step ∷ [])
        ≡ notes_of setup past ++ notes_after setup (facts_of setup past) step }
{}

/// A command that is refused leaves a controller as it was.
pub fn refused_command_changes_nothing()
    ensures { (setup : Setup) (facts : Facts) (command : Command)
        → status_of facts.view command ≢ 0
        → facts_commanded setup facts (Known command) ≡ facts }
{}

/// A command has exactly one answer, Command Complete or Command Status with its opcode, whatever
/// was read of it; but Host Number Of Completed Packets has none where it is accepted.
pub fn each_command_is_answered_once()
    ensures { (setup : Setup) (facts : Facts) (opcode : ℕ) (read : CmdRead)
        → AreOneAnswer opcode (answer_to setup facts opcode read) (HasNoAnswer facts read) }
{}

/// The answers among the notes are, in order, one for each command of the host, except an accepted
/// Host Number Of Completed Packets. Each names the two octets of the opcode of its command, and
/// says that one further command may be sent. No mask withholds an answer.
pub fn commands_are_answered_in_order()
    ensures framed { (setup : Setup) (past : List Step)
        → opcodes_of (commands_of setup past) ≡ opcodes_in (frames (host_octets past)) }
    ensures answered { (setup : Setup) (past : List Step)
        → All (λ octet. octet < 2 ^ 8) (host_octets past)
        → answers_among (notes_of setup past)
        ≡ map one_further (opcodes_of (with_answer (commands_of setup past))) }
    ensures by_two_octets { (setup : Setup) (past : List Step)
        → answers_among (notes_of setup past)
        ≡ map one_further (map as_two_octets (opcodes_of (with_answer (commands_of setup past)))) }
    ensures never_masked { (view : View) (opcode : ℕ) (event : Event) → IsAnswerTo opcode event
        → notes_of_events view (event ∷ []) ≡ Up (record { items = written event }) ∷ [] }
    ensures unanswered { (facts : Facts) (read : CmdRead)
        → (is_answered facts read ≡ false) ↔ HasNoAnswer facts read }
{}

/// A host is answered as if no turn came between its octets, packet by packet. While nothing was
/// heard the controller notes nothing else; after that, while no link was opened and none was to be
/// made, it notes LE events besides. ACL data has no answer, and nothing is noted of it where its
/// link is not open. A loss of synchronisation is reported as Hardware Error 01 exactly where bit
/// 15 of the mask is set.
pub fn a_host_is_answered_whatever_the_turns()
    ensures alone { (setup : Setup) (past : List Step) → HeardNothing past
        → notes_of setup past ≡ notes_of setup (map HostOctet (host_octets past)) }
    ensures beside { (setup : Setup) (past : List Step) → HadNoLink setup past
        → without_le_events (notes_of setup past)
        ≡ without_le_events (notes_of setup (map HostOctet (host_octets past))) }
    ensures by_frames { (setup : Setup) (octets : List ℕ)
        → notes_of setup (map HostOctet octets) ≡ answers_of setup (frames octets) }
    ensures acl { (setup : Setup) (facts : Facts) (handle count : ℕ) (start : Bool)
        (octets : List ℕ)
        → answers_among (notes_fed setup facts
        (Packet (Acl handle start count (record { items = octets })))) ≡ [] }
    ensures no_link { (setup : Setup) (facts : Facts) (handle count : ℕ) (start : Bool)
        (octets : List ℕ) → link_at handle facts.links ≡ None
        → notes_fed setup facts (Packet (Acl handle start count (record { items = octets })))
        ≡ [] }
    ensures loss { (setup : Setup) (facts : Facts)
        → notes_fed setup facts LostSync
        ≡ (if has_bit facts.view.mask 15
        then Up (record { items = written (HardwareError 0x01) }) ∷ [] else []) }
{}

/// Each note names a link of the controller, by a handle below the number of links that it can
/// hold, or is a packet to its host.
pub fn notes_name_links_of_the_controller()
    ensures step { (setup : Setup) (past : List Step) (step : Step)
        → All (HasHandleBelow setup.links) (notes_after setup (facts_of setup past) step) }
    ensures all { (setup : Setup) (past : List Step)
        → All (HasHandleBelow setup.links) (notes_of setup past) }
{}

/// Random words are drawn in order, and then again from the first, whatever comes between, a Reset
/// too: one for each accepted LE Rand, 2018, which returns it, two for each accepted LE Enable
/// Encryption, 2019, two for each LL_ENC_REQ that an end answers, and one for each CONNECT_IND that
/// the controller sets out to send. After n words the next one is at the place n, modulo the number
/// of words.
pub fn random_words_go_round()
    ensures drawn { (setup : Setup) (past : List Step)
        → (facts_of setup past).drawn
        ≡ words_drawn setup past + words_answered setup past + (facts_of setup past).connections }
    ensures counted { (setup : Setup) (past : List Step) (octet : ℕ)
        → result_of (facts_of setup past).octets octet
        ≡ Packet (HostCommand 0x2018 (record { items = [] }))
        → commands_accepted setup (past ++ HostOctet octet ∷ [])
        ≡ commands_accepted setup past ++ LeRand ∷ [] }
    ensures returned { (setup : Setup) (past : List Step) (octet : ℕ)
        → result_of (facts_of setup past).octets octet
        ≡ Packet (HostCommand 0x2018 (record { items = [] }))
        → notes_after setup (facts_of setup past) (HostOctet octet)
        ≡ Up (record {
          items = written (complete_answer 0x00 0x2018
              (little_endian 8 (next_word setup (facts_of setup past).drawn)));
        }) ∷ [] }
{}

/// The packet of a PDU on an advertising channel is good to a controller that listens on that
/// channel, and is to it that very PDU.
pub fn a_pdu_is_understood()
    ensures good { (channel : ℕ) (pdu : AdvPdu) → IsPdu pdu
        → verdict_advertising channel (advertising_packet channel pdu) ≡ Good }
    ensures says { (channel : ℕ) (pdu : AdvPdu) → IsPdu pdu
        → pdu_heard channel (advertising_packet channel pdu) ≡ Some pdu }
{
    air_frame::laws::packet_tells_its_pdu();
    air_frame::laws::pdu_form_is_a_count();
}

/// What a controller wants to send is the packet of a PDU on one of the advertising channels, or
/// that of the link on which it is to send, on a data channel; if its public address has six
/// octets. Nothing happened to that link since, but what its host gave it or asked of it.
pub fn what_is_sent_is_a_pdu()
    ensures { (setup : Setup) (past : List Step) (channel : ℕ) (octets : List ℕ)
        → length setup.public ≡ 6 → (facts_of setup past).wanted ≡ Sends channel octets
        → IsAdvertisingPacket channel octets ⊎ IsLinkPacket (facts_of setup past) channel octets }
{}

/// A CONNECT_IND that is to be sent makes a link under a handle of the controller that no open link
/// has. An initiator answers each device that it is to connect to and has no link with yet: the
/// fields of its CONNECT_IND are in range; a handle is free, if the controller can hold no more
/// links than the view of its host has places for; and there is an access address, if each
/// CONNECT_IND that was to be sent was sent in the next phase. The view knows whether there is one.
pub fn a_controller_opens_links_as_it_may()
    ensures new { (setup : Setup) (past : List Step) (channel : ℕ) (link : LinkSetup)
        → (facts_of setup past).turn.doing ≡ Connects channel link
        → (link.handle < setup.links)
        × (link_at link.handle (facts_of setup past).links ≡ None) }
    ensures in_range { (setup : Setup) (past : List Step) (on : InitiatorFacts) (access : ℕ)
        → (facts_of setup past).initiator ≡ Some on
        → is_in_range (fields_sent setup on access (facts_of setup past)) ≡ true }
    ensures handle { (setup : Setup) (past : List Step) (on : InitiatorFacts)
        → setup.links ≤ MOST_LINKS → (facts_of setup past).initiator ≡ Some on
        → IsSome (free_from 0 (facts_of setup past).links) }
    ensures known { (setup : Setup) (past : List Step)
        → (facts_of setup past).view.has_address
        ≡ is_some (nth_access setup.cursor (facts_of setup past).connections) }
    ensures address { (setup : Setup) (past : List Step) (on : InitiatorFacts) (channel : ℕ)
        → SendsEach setup past → (facts_of setup past).initiator ≡ Some on
        → (facts_of setup past).turn.doing ≡ Initiates channel
        → is_some (nth_access setup.cursor (facts_of setup past).connections) ≡ true }
    ensures answers { (setup : Setup) (past : List Step) (on : InitiatorFacts) (channel : ℕ)
        (pdu : AdvPdu) → setup.links ≤ MOST_LINKS → SendsEach setup past
        → (facts_of setup past).initiator ≡ Some on
        → (facts_of setup past).turn.doing ≡ Initiates channel
        → answers_by_connecting on pdu (facts_of setup past) ≡ true
        → IsSome (link_to setup on pdu (facts_of setup past)) }
{}

/// As a turn begins in a slot, a controller notes that a link enters an event exactly where the
/// link does not end in that slot, none of its procedures ended it, and the anchor of its next
/// event is there, whether the radio is on or not; at no other time does it note so. The events of
/// a link are numbered from 0 on, and the channel of each event is the one that the end of the link
/// has then (Core 5.2, volume 6 part B, sections 4.5.1 and 4.5.8).
pub fn events_are_entered_at_their_anchors()
    ensures entered { (setup : Setup) (past : List Step) (slot : ℕ) (on : Bool)
        (handle event channel : ℕ)
        → Contains (notes_after setup (facts_of setup past) (TurnBegins slot on))
        (Enter handle (record { 0 = event }) channel)
        ↔ IsEntered slot (facts_of setup past).links handle event channel }
    ensures only_as_turns_begin { (setup : Setup) (past : List Step) (step : Step)
        (handle event channel : ℕ)
        → Contains (notes_after setup (facts_of setup past) step)
        (Enter handle (record { 0 = event }) channel) → begins_turn step ≡ true }
{}

/// A controller sends and receives on a link only once it entered an event: where that is what is
/// done in the next phase, the link is not open any more, or has entered one (Core 5.2, volume 6
/// part B, section 4.5.1).
pub fn exchanges_are_in_events()
    ensures { (setup : Setup) (past : List Step)
        → IsInEvent (facts_of setup past).turn.doing (facts_of setup past).links }
{}

/// A controller notes that a link is shut exactly in three cases. As a turn begins it is overdue:
/// with 3E where it received nothing good and six intervals have passed since the CONNECT_IND, with
/// 08 where its supervision timeout has passed since the last good packet (Core 5.2, volume 6 part
/// B, section 4.5.2), else with 22 where its peer did not answer a procedure in time (section 5.2),
/// else with 16 where its supervision timeout has passed since the host ended it (section 5.1.6).
/// As a turn ends it leaves: with 16 where its LL_TERMINATE_IND is acknowledged, else with the code
/// with which one of its procedures ended it, else with that of the peer where it has sent a packet
/// since it took LL_TERMINATE_IND of the peer. Or an octet of the host completes a Reset, 0C03 with
/// no parameters, which is accepted at any time and shuts each open link with 00 (volume 4 part E,
/// section 7.3.2).
pub fn links_are_shut_with_their_reason()
    ensures shut { (setup : Setup) (past : List Step) (step : Step) (handle reason : ℕ)
        → Contains (notes_after setup (facts_of setup past) step)
        (Shut handle (record { 0 = reason }))
        ↔ IsShut (facts_of setup past) step handle reason }
    ensures reset { (setup : Setup) (past : List Step) (octet : ℕ)
        → commands_accepted_after (facts_of setup past) (HostOctet octet) ≡ Reset ∷ []
        ↔ result_of (facts_of setup past).octets octet
        ≡ Packet (HostCommand 0x0C03 (record { items = [] })) }
{}

/// An advertiser that is left on in a controller with no link, with the radio on, is in an event in
/// the first three slots of each interval and in no others. In these it transmits on the channels
/// that it uses and is idle on the others; between events the scanner has the radio in its windows,
/// or else the initiator in its own. One that is on, with an event due and the radio free, is left
/// on where nothing happens between turns. An interval that a host may set has 16 slots or more,
/// and so has the interval of an advertiser at any time.
pub fn an_advertiser_keeps_its_interval()
    ensures slots { (start : ℕ) (advertiser : AdvertiserFacts) (turns : ℕ → Facts)
        → IsLeftOn start advertiser turns → 3 ≤ slots_of advertiser.params.interval → (n : ℕ)
        → (facts_in_turn (start + n) (turns n)).turn.doing
        ≡ doing_at (doing_between (start + n) (turns n)) advertiser.params.channels
        (place_within (slots_of advertiser.params.interval) n) }
    ensures left_alone { (start : ℕ) (advertiser : AdvertiserFacts) (facts : Facts)
        → list_any is_some facts.links ≡ false → facts.advertising.on ≡ Some advertiser
        → advertiser.due ≤ start → is_held_in facts.radio.hold start ≡ false
        → IsLeftOn start advertiser (turns_from start facts) }
    ensures may_be_set { (view : View) (min max kind own peer_kind : ℕ) (peer : List ℕ)
        (channels policy : ℕ)
        → status_of view (LeSetAdvParams min max kind own peer_kind peer channels policy) ≡ 0
        → 16 ≤ slots_of min }
    ensures at_any_time { (setup : Setup) (past : List Step) (on : AdvertiserFacts)
        → (facts_of setup past).advertising.on ≡ Some on → 16 ≤ slots_of on.params.interval }
{}
