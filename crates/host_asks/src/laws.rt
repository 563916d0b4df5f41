//! The laws of what the view of a host knows of the ends of its links. The bodies do nothing: the
//! contracts are the laws.
ghost use Rattle.std.specs.Prelude.{◌≡◌, ℕ, Bool, true, false, List, Option, Some, None, Err};
ghost use Rattle.ble_base.specs.declared.addresses.Address.{Address};
ghost use Rattle.ble_base.specs.declared.error_codes.ErrCode.{ErrCode};
ghost use Rattle.hci_cmd.specs.declared.command.Command.{Command};
ghost use Rattle.link_commands.specs.open_links.link_model.Setup.{Setup};
ghost use Rattle.link_commands.specs.open_links.link_model.Facts.{Facts, first_facts};
ghost use Rattle.link_commands.specs.open_links.link_model.Hosts.{facts_answered, facts_key_answered};
ghost use Rattle.link_commands.specs.open_links.link_model.Step.{Step};
ghost use Rattle.link_commands.specs.open_links.link_model.End.{facts_after, facts_of};
ghost use Rattle.host_view.specs.declared.links.Link.{Link};
ghost use Rattle.host_view.specs.View.{View};
ghost use Rattle.host_view.specs.Links.{link_in};
ghost use Rattle.host_view.specs.Noted.{opened_link};
ghost use Rattle.host_view.specs.Status.{status_of};
ghost use Rattle.link_commands.specs.declared.moments.Moment.{Moment};
ghost use Rattle.link_commands.specs.Commands.{facts_commanded, host_step_of};
ghost use Rattle.host_asks.specs.Commands.{MayComeIf, WordsFit};
ghost use Rattle.link_commands.specs.Commands.{is_about, link_commanded};
ghost use Rattle.host_asks.specs.Knowing.{KnowsAsks};
ghost use Rattle.host_asks.specs.Lasting.{AllMayHappen, LinkEvent, first_viewed};
ghost use Rattle.host_asks.specs.Lasting.{viewed_after_all};
ghost use Rattle.host_asks.specs.Noting.{is_of_host, link_after_step, link_after_notes};

/// The view of a link that was just opened knows the end of it: nothing is asked for there.
pub fn a_new_link_is_known()
    ensures { (setup : Setup) (own peer : Address)
        → KnowsAsks (opened_link setup.link.role own peer) (first_facts setup) }
{}

/// Where a command on a link is accepted, and the view knows the end of that link, the step that the
/// command makes may come there: the host asks for no procedure that the end wants or runs, and all
/// values are in their ranges, if the words that a central draws fit LL_ENC_REQ (Core 5.2, volume 4
/// part E, sections 7.1 and 7.8; volume 6 part B, sections 2.4.2.4 and 5.1).
pub fn accepted_commands_may_come()
    ensures { (view : View) (command : Command) (handle : ℕ) (moment : Moment) (link : Link) (facts : Facts)
        → status_of view command ≡ 0
        → is_about handle command ≡ true → link_in view.links handle ≡ Some link
        → KnowsAsks link facts → WordsFit moment
        → MayComeIf (host_step_of command moment link.role facts.peer) facts }
{}

/// The view knows the end after the step of an accepted command too, until a procedure ends the
/// link. Where the end knows the features or the version of its peer already, the command makes no
/// step: it is answered at once, and the view takes it as done.
pub fn a_command_keeps_what_is_known()
    ensures { (setup : Setup) (view : View) (command : Command) (handle : ℕ) (moment : Moment) (link : Link)
        (facts : Facts)
        → status_of view command ≡ 0
        → is_about handle command ≡ true → link_in view.links handle ≡ Some link
        → KnowsAsks link facts
        → (facts_commanded setup (host_step_of command moment link.role facts.peer)
        facts).control.ends ≡ None
        → KnowsAsks (link_commanded command facts.peer link)
        (facts_commanded setup (host_step_of command moment link.role facts.peer) facts) }
{}

/// The view knows the end after any other step, with what that notes, and with the event of a
/// request of the peer: a procedure that is refused or done is the one that the host asked for.
pub fn a_step_keeps_what_is_known()
    ensures { (setup : Setup) (past : List Step) (step : Step) (link : Link)
        → let facts = facts_of setup past in is_of_host step ≡ false → KnowsAsks link facts
        → (facts_after setup facts step).control.ends ≡ None
        → KnowsAsks (link_after_step setup facts step link) (facts_after setup facts step) }
{}

/// A request of the peer that is refused no longer waits for the host, whatever the view keeps of
/// it. So where a mask withholds its event and it is refused at once, the view need not know of it.
/// Whether its host has a key changes nothing that the view knows of an end.
pub fn an_answer_keeps_what_is_known()
    ensures refused { (link : Link) (facts : Facts) (code : ErrCode) (waits : Bool)
        → KnowsAsks link facts
        → (facts_answered (Err code) facts).control.ends ≡ None
        → KnowsAsks (record link { waits_for_parameters = waits })
        (facts_answered (Err code) facts) }
    ensures keyed { (link : Link) (facts : Facts) (key : Option (List ℕ)) (slot : ℕ)
        → KnowsAsks link facts → KnowsAsks link (facts_key_answered key slot facts) }
    ensures withheld { (setup : Setup) (past : List Step) (step : Step) (link : Link)
        (code : ErrCode) → let facts = facts_of setup past in is_of_host step ≡ false
        → KnowsAsks link facts
        → (facts_answered (Err code) (facts_after setup facts step)).control.ends ≡ None
        → KnowsAsks (link_after_notes setup facts step link)
        (facts_answered (Err code) (facts_after setup facts step)) }
{}

/// So through all that happens to a link and to an end of it, the view knows the end until a
/// procedure ends the link: commands that are accepted, steps of the end, and requests of the peer
/// that its host receives or that are answered at once.
pub fn a_link_is_known_while_it_lasts()
    ensures { (setup : Setup) (own peer : Address) (events : List LinkEvent)
        → AllMayHappen setup (first_viewed setup own peer) events
        → (viewed_after_all setup (first_viewed setup own peer) events).facts.control.ends ≡ None
        → KnowsAsks (viewed_after_all setup (first_viewed setup own peer) events).link
        (viewed_after_all setup (first_viewed setup own peer) events).facts }
{}
