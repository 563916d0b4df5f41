//! Worked lists of calls, and tables to which no calls lead.
ghost use Rattle.std.specs.Prelude.{◌≡◌, ◌++◌, ℕ, true, false, List, None};
ghost use Rattle.ble_base.specs.declared.roles.Role.{Role};
ghost use Rattle.procedures.specs.procedure_stages.Kinds.{own_kind};
ghost use Rattle.procedures.specs.Table.{first_facts};
ghost use Rattle.procedures.specs.procedure_stages.InProgress.{has_peer, is_host_asked};
ghost use Rattle.procedures.specs.procedure_stages.Queue.{waiting_in};
ghost use Rattle.procedures.specs.Calls.{Call, after_calls};
ghost use Rattle.table_laws.specs.Waiting.{asked, end_waiting, version_waiting};
ghost use Rattle.table_laws.specs.Pasts.{MayAll};
ghost use Rattle.table_laws.specs.Exclusive.{AllKeepRules, exclusive_waiting};
ghost use Rattle.table_laws.specs.Quiet.{AllMeanwhile, MayKeep};
ghost use Rattle.table_laws.specs.Worked.{asked_at_the_end, begun_anew, crowding};
ghost use Rattle.table_laws.specs.Worked.{encryption_asked, encryption_begun};

/// Calls that meet the premises of the laws, after which twenty control PDUs wait.
pub fn twenty_may_wait()
    ensures comes { MayAll (first_facts Role.Central 27) false crowding }
    ensures twenty { waiting_in (after_calls (first_facts Role.Central 27) crowding).queue ≡ 20 }
{}

/// A request that comes after the Disconnect is put to the host too, but no answer to it is queued:
/// so in the bound the host counts as asked only while the link is not to end.
pub fn the_host_is_asked_after_its_disconnect()
    ensures waiting { waiting_in (after_calls (first_facts Role.Central 27) asked_at_the_end).queue
        ≡ 18 }
    ensures end { end_waiting (after_calls (first_facts Role.Central 27) asked_at_the_end) ≡ 1 }
    ensures asked { let f = after_calls (first_facts Role.Central 27) asked_at_the_end in
        is_host_asked f.progress ≡ true }
    ensures uncounted { asked (after_calls (first_facts Role.Central 27) asked_at_the_end) false
        ≡ 0 }
{}

/// After a peripheral that begins a PHY update anew an LL_PHY_UPDATE_IND is left, where neither end
/// has a procedure in progress at the central. It does not keep the rules.
pub fn a_peer_that_begins_anew_leaves_a_pdu()
    ensures left { exclusive_waiting (after_calls (first_facts Role.Central 27) begun_anew) ≡ 1 }
    ensures no_own { own_kind (after_calls (first_facts Role.Central 27) begun_anew).progress
        ≡ None }
    ensures no_peer { has_peer (after_calls (first_facts Role.Central 27) begun_anew).progress
        ≡ false }
    ensures breaks_rules { AllKeepRules (first_facts Role.Central 27) begun_anew → ⊥ }
{}

/// No calls lead to a table in which 21 control PDUs wait, or two LL_VERSION_IND. With a peer that
/// keeps the rules, none lead to a central's table in which a PDU of a procedure that excludes
/// others waits, and neither end has a procedure in progress.
pub fn no_calls_lead_to_these()
    ensures crowded { (role : Role) (max_rx : ℕ) (calls : List Call)
        → MayAll (first_facts role max_rx) false calls
        → waiting_in (after_calls (first_facts role max_rx) calls).queue ≡ 21 → ⊥ }
    ensures two_versions { (role : Role) (max_rx : ℕ) (calls : List Call)
        → MayAll (first_facts role max_rx) false calls
        → version_waiting (after_calls (first_facts role max_rx) calls) ≡ 2 → ⊥ }
    ensures left_over { (max_rx : ℕ) (calls : List Call)
        → MayAll (first_facts Role.Central max_rx) false calls
        → AllKeepRules (first_facts Role.Central max_rx) calls
        → exclusive_waiting (after_calls (first_facts Role.Central max_rx) calls) ≡ 1
        → own_kind (after_calls (first_facts Role.Central max_rx) calls).progress ≡ None
        → has_peer (after_calls (first_facts Role.Central max_rx) calls).progress ≡ false → ⊥ }
{}

/// A central that begins an encryption may keep a PDU of the peripheral from then on, and goes on
/// to LL_START_ENC_RSP meanwhile.
pub fn a_pdu_may_be_kept()
    ensures comes { MayAll (first_facts Role.Central 27) false encryption_begun }
    ensures rules { AllKeepRules (first_facts Role.Central 27) encryption_begun }
    ensures keeps { MayKeep (after_calls (first_facts Role.Central 27) encryption_begun) }
    ensures comes_later { MayAll (after_calls (first_facts Role.Central 27) encryption_begun) false
        encryption_asked }
    ensures meanwhile { AllMeanwhile (after_calls (first_facts Role.Central 27) encryption_begun)
        encryption_asked }
    ensures waits { waiting_in (after_calls (first_facts Role.Central 27)
        (encryption_begun ++ encryption_asked)).queue ≡ 1 }
{}
