//! Worked examples, and why the view takes as done what is answered at once.
ghost use Rattle.std.specs.Prelude.{◌≡◌, ℕ, true, false, None};
ghost use Rattle.ble_base.specs.declared.procedure_kinds.Kind.{Kind};
ghost use Rattle.hci_cmd.specs.declared.command.Command.{Command};
ghost use Rattle.procedure_events.specs.procedure_stages.InProgress.{is_host_asked};
ghost use Rattle.link_commands.specs.open_links.link_model.Facts.{Facts};
ghost use Rattle.host_view.specs.declared.links.Link.{Link};
ghost use Rattle.host_view.specs.Links.{is_asked};
ghost use Rattle.link_commands.specs.Commands.{link_accepted};
ghost use Rattle.host_asks.specs.Knowing.{KnowsAsks};
ghost use Rattle.host_asks.specs.Rows.{asked_once, asked_wrongly};

/// A peer that breaks the rules may send a request that is out of range while one waits for the
/// host. Then none waits any more, and the host does not receive that: so the view lets it answer
/// where the end does not wait, and such an answer does nothing.
pub fn a_peer_may_withdraw_its_request()
    ensures waits { is_host_asked asked_once.table.progress ≡ true }
    ensures gone { is_host_asked asked_wrongly.table.progress ≡ false }
    ensures goes_on { asked_wrongly.ends ≡ None }
{}

/// An accepted command alone does not leave the view as the end is, where it is answered at once:
/// no step would ever clear what it asks for, and the host could not ask a second time.
pub fn an_answer_at_once_is_taken()
    ensures version { (handle : ℕ) (link : Link) (facts : Facts) → KnowsAsks link facts
        → is_asked Kind.Version link.asked ≡ false
        → KnowsAsks (link_accepted (Command.ReadRemoteVersion handle) link) facts → ⊥ }
    ensures features { (handle : ℕ) (link : Link) (facts : Facts) → KnowsAsks link facts
        → is_asked Kind.Features link.asked ≡ false
        → KnowsAsks (link_accepted (Command.LeReadRemoteFeatures handle) link) facts → ⊥ }
{}
