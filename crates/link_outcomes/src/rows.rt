//! Worked notes, in which a procedure is answered, and notes in which it is not.
ghost use Rattle.std.specs.Prelude.{◌≡◌, true, [], ◌++◌, Some, None};
ghost use Rattle.ble_base.specs.declared.procedure_kinds.Kind.{Kind};
ghost use Rattle.data_pdu.specs.Reading.{ctrl_of};
ghost use Rattle.exclusive_stages.specs.declared.pdus.Exclusive.{Exclusive};
ghost use Rattle.link_model.specs.End.{facts_of};
ghost use Rattle.link_model.specs.Setup.{Setup};
ghost use Rattle.link_outcomes.specs.Answered.{IsAnsweredIn, kind_answered, kind_begun};
ghost use Rattle.link_outcomes.specs.Lasting.{is_lasting};
ghost use Rattle.link_outcomes.specs.Rows.{phy_octets, takes_octets, update_octets};
ghost use Rattle.link_procedures.specs.Rows.{refuses_procedure};

/// A connection parameters request is answered by LL_CONNECTION_UPDATE_IND, and a PHY update by
/// LL_PHY_UPDATE_IND, also where another procedure is refused. A link lasts at an end at first.
pub fn worked_answers()
    ensures request { IsAnsweredIn Exclusive.Request (takes_octets 1 3 update_octets) }
    ensures phy { IsAnsweredIn Exclusive.Phy (takes_octets 1 3 phy_octets) }
    ensures other_refused { IsAnsweredIn Exclusive.Phy
        (refuses_procedure Kind.Length ++ takes_octets 1 3 phy_octets) }
    ensures begins_none { kind_begun (ctrl_of update_octets) ≡ None }
    ensures answers { kind_answered (ctrl_of update_octets) ≡ Some Exclusive.Request }
    ensures lasts { (setup : Setup) → is_lasting (facts_of setup []) ≡ true }
{}

/// A PHY update is not answered by LL_CONNECTION_UPDATE_IND, nor by data with the octets of
/// LL_PHY_UPDATE_IND, nor where nothing is taken, nor where it is refused meanwhile.
pub fn wrong_answers()
    ensures other { IsAnsweredIn Exclusive.Phy (takes_octets 1 3 update_octets) → ⊥ }
    ensures data { IsAnsweredIn Exclusive.Phy (takes_octets 1 2 phy_octets) → ⊥ }
    ensures nothing { IsAnsweredIn Exclusive.Phy [] → ⊥ }
    ensures refused { IsAnsweredIn Exclusive.Phy
        (refuses_procedure Kind.Phy ++ takes_octets 1 3 phy_octets) → ⊥ }
{}
