//! Laws of the PDU that an end has fixed as it hears a packet. The bodies are empty: the contracts
//! are the laws.
ghost use Rattle.std.specs.Prelude.{◌≡◌, ◌++◌, ℕ, Bool, List, Some, false, true};
ghost use Rattle.std.specs.List.{Contains};
ghost use Rattle.ble_base.specs.declared.roles.Role.{Role};
ghost use Rattle.journal_ends.specs.journal_acks.link_calls.Uses.{listens_under};
ghost use Rattle.journal_ends.specs.link_model.Data.{is_control};
ghost use Rattle.journal_ends.specs.link_model.End.{facts_after, facts_of};
ghost use Rattle.journal_ends.specs.link_model.Facts.{Facts, keyed_of};
ghost use Rattle.journal_ends.specs.link_model.Receiving.{has_ended, replies_of};
ghost use Rattle.journal_ends.specs.link_model.Setup.{Setup};
ghost use Rattle.journal_ends.specs.link_model.Step.{Step, PacketReceived, PacketSent, PduFixed};
ghost use Rattle.journal_ends.specs.open_links.OpenLinks.{OpenLink, facts_in, link_at};
ghost use Rattle.journal_ends.specs.run_model.Feeding.{AreDistinct};
ghost use Rattle.journal_ends.specs.run_model.History.{Event};
ghost use Rattle.journal_ends.specs.run_model.Run.{Given, facts_at, history_of, run_of};
ghost use Rattle.journal_controls.specs.KeyedLines.{has_next};

/// An end of which no control PDU has left the queue and waits to be sent fixes a control PDU
/// exactly where one waits. A central is always such an end, and a peripheral that is one before a
/// packet reaches it is one once it has answered; where it does not answer, it is one, or it ended
/// the link (Core 5.2, volume 6 part B, section 4.5.9; when a PDU is fixed is our choice).
pub fn a_control_pdu_is_fixed_where_one_waits()
    ensures fixes { (setup : Setup) (past : List Step) → let facts = facts_of setup past in
        is_control facts.outgoing.fixed ≡ false → let now = facts_after setup facts PduFixed in
        now.fixes_control ≡ has_next (keyed_of now) }
    ensures central { (setup : Setup) (past : List Step) → setup.link.role ≡ Role.Central
        → is_control (facts_of setup past).outgoing.fixed ≡ false }
    ensures peripheral { (setup : Setup) (facts : Facts) (slot later : ℕ) (octets : List ℕ)
        (room : Bool) → setup.link.role ≡ Role.Peripheral
        → is_control facts.outgoing.fixed ≡ false
        → let heard = facts_after setup facts (PacketReceived slot octets room) in
        is_control (facts_after setup heard (PacketSent later)).outgoing.fixed ≡ false }
    ensures silent { (setup : Setup) (facts : Facts) (slot : ℕ) (octets : List ℕ) (room : Bool)
        → setup.link.role ≡ Role.Peripheral → is_control facts.outgoing.fixed ≡ false
        → replies_of setup facts slot octets room ≡ false
        → let heard = facts_after setup facts (PacketReceived slot octets room) in
        is_control heard.outgoing.fixed ≡ true → has_ended heard ≡ true }
{}

/// At any time of a run, a control PDU of an open end that has left the queue is sent at once, and
/// so does not wait, unless the end has ended the link. A peripheral that listens has fixed a
/// control PDU exactly where one waits (Core 5.2, volume 6 part B, sections 4.5.1 and 4.5.9; when a
/// PDU is fixed is our choice).
pub fn what_open_ends_have_fixed()
    ensures free { (given : Given) (before rest : List Event) (station handle : ℕ)
        (link : OpenLink) → AreDistinct given.stations → Contains given.stations station
        → history_of (run_of given) ≡ before ++ rest
        → link_at handle (facts_at given station before).links ≡ Some link
        → has_ended (facts_in link) ≡ false
        → is_control (facts_in link).outgoing.fixed ≡ false }
    ensures fixes { (given : Given) (before rest : List Event) (station handle : ℕ)
        (link : OpenLink) → AreDistinct given.stations → Contains given.stations station
        → history_of (run_of given) ≡ before ++ rest
        → link_at handle (facts_at given station before).links ≡ Some link
        → listens_under handle (facts_at given station before).turn.doing ≡ true
        → link.setup.link.role ≡ Role.Peripheral
        → (facts_in link).fixes_control ≡ has_next (keyed_of (facts_in link)) }
{}
