//! Both ends of a link under the commands of their hosts. The bodies only call the laws that they
//! rest on: the contracts are the laws.
ghost use Rattle.std.specs.Prelude.{◌≡◌, ℕ, Bool, true};
ghost use Rattle.hci_cmd.specs.declared.command.Command.{Command};
ghost use Rattle.procedure_events.specs.procedure_stages.Kinds.{role_of};
ghost use Rattle.link_commands.specs.open_links.link_model.Setup.{Setup};
ghost use Rattle.link_commands.specs.open_links.link_model.Facts.{Facts};
ghost use Rattle.link_pairs.specs.Ends.{AreEnds};
ghost use Rattle.link_pairs.specs.Parting.{ArePartingFrom};
ghost use Rattle.link_pairs.specs.Shown.{AreLinked};
ghost use Rattle.host_view.specs.View.{View};
ghost use Rattle.host_view.specs.Status.{status_of};
ghost use Rattle.link_commands.specs.declared.moments.Moment.{Moment};
ghost use Rattle.link_commands.specs.Commands.{facts_commanded, host_step_of, is_about};
ghost use Rattle.host_asks.specs.Commands.{WordsFit};
ghost use Rattle.host_asks.specs.Views.{KnowsAt};

/// Where a command on a link is accepted, and the view of that host knows its end of the link, and
/// the words that a central draws fit LL_ENC_REQ, the two ends stay linked, or parting (Core 5.2,
/// volume 6 part B, sections 2.4.2.4, 5.1 and 5.1.6).
pub fn commands_leave_ends_linked()
    ensures central { (central peripheral : Setup) (turns : ℕ) (answers : Bool) (c p : Facts)
        (view : View) (command : Command) (handle : ℕ) (moment : Moment) → AreEnds central peripheral
        → AreLinked central peripheral turns answers c p → status_of view command ≡ 0
        → is_about handle command ≡ true → KnowsAt view handle c → WordsFit moment
        → AreLinked central peripheral turns answers (facts_commanded central
        (host_step_of command moment (role_of c.control.table.progress) c.peer) c) p }
    ensures peripheral { (central peripheral : Setup) (turns : ℕ) (answers : Bool) (c p : Facts)
        (view : View) (command : Command) (handle : ℕ) (moment : Moment) → AreEnds central peripheral
        → AreLinked central peripheral turns answers c p → status_of view command ≡ 0
        → is_about handle command ≡ true → KnowsAt view handle p → WordsFit moment
        → AreLinked central peripheral turns answers c (facts_commanded peripheral
        (host_step_of command moment (role_of p.control.table.progress) p.peer) p) }
    ensures taker { (taker sender : Setup) (t s : Facts) (view : View) (command : Command)
        (handle : ℕ) (moment : Moment) → ArePartingFrom taker sender t s
        → status_of view command ≡ 0
        → is_about handle command ≡ true → KnowsAt view handle t → WordsFit moment
        → ArePartingFrom taker sender (facts_commanded taker
        (host_step_of command moment (role_of t.control.table.progress) t.peer) t) s }
    ensures sender { (taker sender : Setup) (t s : Facts) (view : View) (command : Command)
        (handle : ℕ) (moment : Moment) → ArePartingFrom taker sender t s
        → status_of view command ≡ 0
        → is_about handle command ≡ true → KnowsAt view handle s → WordsFit moment
        → ArePartingFrom taker sender t (facts_commanded sender
        (host_step_of command moment (role_of s.control.table.progress) s.peer) s) }
{
    link_pairs::hosts_leave_ends_linked();
    link_pairs::hosts_leave_ends_parting();
}
