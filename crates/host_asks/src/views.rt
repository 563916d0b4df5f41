//! The laws of the view of all links. The bodies do nothing: the contracts are the laws.
ghost use Rattle.std.specs.Prelude.{◌≡◌, ◌<◌, ℕ, true, false, List, fold, length, Some, None, Err};
ghost use Rattle.std.specs.Prelude.{is_none};
ghost use Rattle.std.specs.List.{AllByRecursion};
ghost use Rattle.std.specs.Option.{option_map};
ghost use Rattle.ble_base.specs.declared.addresses.Address.{Address};
ghost use Rattle.ble_base.specs.declared.notes.Note.{Note};
ghost use Rattle.ble_base.specs.declared.notes.Note.TheVariants.{Opened, Up};
ghost use Rattle.ble_base.specs.declared.error_codes.ErrCode.{ErrCode};
ghost use Rattle.ble_base.specs.declared.roles.Role.{Role};
ghost use Rattle.hci_cmd.specs.declared.command.Command.{Command};
ghost use Rattle.hci_evt.specs.Event.{written};
ghost use Rattle.hci_evt.specs.declared.event.Event.TheVariants.{ParamRequest};
ghost use Rattle.procedure_events.specs.procedure_stages.declared.steps.Effect.TheVariants.{AskHost};
ghost use Rattle.procedure_events.specs.procedure_stages.declared.steps.Effect.{Effect};
ghost use Rattle.procedure_events.specs.procedure_stages.Kinds.{role_of};
ghost use Rattle.procedure_events.specs.procedure_stages.Steps.{asks_host};
ghost use Rattle.link_commands.specs.open_links.link_model.Setup.{Setup};
ghost use Rattle.link_commands.specs.open_links.link_model.Facts.{Facts, first_facts};
ghost use Rattle.link_commands.specs.open_links.link_model.Step.{Step};
ghost use Rattle.link_commands.specs.open_links.link_model.End.{facts_after, facts_of, notes_after};
ghost use Rattle.link_commands.specs.open_links.link_model.Hosts.{facts_answered, facts_key_answered};
ghost use Rattle.link_commands.specs.open_links.link_model.declared.state.PeerFacts.{PeerFacts};
ghost use Rattle.link_pairs.specs.Hosts.{MayHost};
ghost use Rattle.host_view.specs.Refusals.{count_if};
ghost use Rattle.host_view.specs.Status.{status_of};
ghost use Rattle.host_view.specs.View.{View};
ghost use Rattle.host_view.specs.Changes.{view_after};
ghost use Rattle.host_view.specs.Links.{link_in};
ghost use Rattle.host_view.specs.Noted.{view_noted};
ghost use Rattle.host_view.specs.declared.links.Link.{Link};
ghost use Rattle.link_commands.specs.declared.moments.Moment.{Moment};
ghost use Rattle.link_commands.specs.Commands.{facts_commanded};
ghost use Rattle.host_asks.specs.Commands.{MayComeIf, WordsFit};
ghost use Rattle.link_commands.specs.Commands.{host_step_of, host_steps, is_about};
ghost use Rattle.host_asks.specs.Knowing.{KnowsAsks};
ghost use Rattle.link_commands.specs.Commands.{is_read_of_peer, link_accepted};
ghost use Rattle.host_asks.specs.Noting.{effect_after, is_of_host, link_after_note};
ghost use Rattle.link_commands.specs.Views.{events_at_once};
ghost use Rattle.host_asks.specs.Views.{IsNoteOf, KnowsAt, KnowsOnceReported};
ghost use Rattle.link_commands.specs.Views.{view_commanded};
ghost use Rattle.host_asks.specs.Views.{leaves_other_links};

/// A link that is opened is known, where the view has a place for it.
pub fn an_opened_link_is_known()
    ensures { (view : View) (setup : Setup) (own peer : Address)
        → setup.link.handle < length view.links
        → KnowsAt (view_noted view (Opened setup.link.handle setup.link.role own peer))
        setup.link.handle (first_facts setup) }
{}

/// The notes of an end change its own link in the view, and no other.
pub fn notes_change_their_link()
    ensures notes { (setup : Setup) (facts : Facts) (step : Step)
        → AllByRecursion (IsNoteOf setup.link.handle) (notes_after setup facts step) }
    ensures own { (handle : ℕ) (view : View) (notes : List Note)
        → AllByRecursion (IsNoteOf handle) notes
        → link_in (fold view_noted view notes).links handle
        ≡ option_map (λ link. fold link_after_note link notes) (link_in view.links handle) }
    ensures other { (handle other : ℕ) (view : View) (notes : List Note)
        → AllByRecursion (IsNoteOf handle) notes → (other ≡ handle → ⊥)
        → link_in (fold view_noted view notes).links other ≡ link_in view.links other }
{}

/// An accepted command changes the links that it is about. It changes no other link, but for the
/// commands that are left out here: Reset, which shuts all links, and Host Number Of Completed
/// Packets.
pub fn commands_change_their_link()
    ensures own { (view : View) (command : Command) (handle : ℕ)
        → is_about handle command ≡ true
        → link_in (view_after view command).links handle
        ≡ option_map (link_accepted command) (link_in view.links handle) }
    ensures other { (view : View) (command : Command) (handle : ℕ)
        → is_about handle command ≡ false → leaves_other_links command ≡ true
        → link_in (view_after view command).links handle ≡ link_in view.links handle }
{}

/// Where the view knows an end, it knows it after each step that its host does not make, once the
/// host has received a request of the peer that the step brought; and whatever packets the host
/// receives before that, since data and requests for keys change nothing that it asked for. Where a
/// mask withholds the request, it is refused at once; and one for a key is answered at once as by a
/// host that has none, which changes nothing of what is known.
pub fn steps_keep_what_is_known()
    ensures step { (view : View) (setup : Setup) (past : List Step) (step : Step)
        → let facts = facts_of setup past in is_of_host step ≡ false
        → KnowsAt view setup.link.handle facts
        → (facts_after setup facts step).control.ends ≡ None
        → KnowsOnceReported (effect_after setup facts step)
        (fold view_noted view (notes_after setup facts step)) setup.link.handle
        (facts_after setup facts step) }
    ensures packet { (effect : Effect) (view : View) (octets : List ℕ) (handle : ℕ)
        (facts : Facts) → KnowsOnceReported effect view handle facts
        → KnowsOnceReported effect (view_noted view (Up (record { items = octets }))) handle facts }
    ensures request { (view : View) (handle min max latency timeout : ℕ) (facts : Facts)
        → handle < 65536 → KnowsOnceReported (AskHost min max latency timeout) view handle facts
        → KnowsAt (view_noted view (Up (record {
          items =
              written (ParamRequest handle min max latency timeout);
        }))) handle facts }
    ensures none { (effect : Effect) (view : View) (handle : ℕ) (facts : Facts)
        → asks_host effect ≡ false → KnowsOnceReported effect view handle facts
        → KnowsAt view handle facts }
    ensures refused { (effect : Effect) (view : View) (handle : ℕ) (facts : Facts)
        (code : ErrCode) → KnowsOnceReported effect view handle facts
        → (facts_answered (Err code) facts).control.ends ≡ None
        → KnowsAt view handle (facts_answered (Err code) facts) }
    ensures keyless { (effect : Effect) (view : View) (handle slot : ℕ) (facts : Facts)
        → KnowsOnceReported effect view handle facts
        → KnowsOnceReported effect view handle (facts_key_answered None slot facts) }
{}

/// Where the view knows an end, and a command on its link is accepted, the step that the command
/// makes there may come, if the words that a central draws fit LL_ENC_REQ, and the view knows the
/// end after it. What the end knows of its peer already is answered by one event at once, and the
/// view takes it as done. Otherwise the command makes a step. What is known of the ends of other
/// links stays known, but for the commands that are left out above.
pub fn commands_keep_what_is_known()
    ensures may { (view : View) (command : Command) (handle : ℕ) (moment : Moment) (facts : Facts)
        → status_of view command ≡ 0
        → is_about handle command ≡ true → KnowsAt view handle facts → WordsFit moment
        → MayComeIf (host_step_of command moment (role_of facts.control.table.progress)
        facts.peer) facts }
    ensures keeps { (view : View) (setup : Setup) (command : Command) (moment : Moment) (facts : Facts)
        → status_of view command ≡ 0
        → is_about setup.link.handle command ≡ true → KnowsAt view setup.link.handle facts
        → (facts_commanded setup (host_step_of command moment
        (role_of facts.control.table.progress) facts.peer) facts).control.ends ≡ None
        → KnowsAt (view_commanded view command setup.link.handle facts.peer) setup.link.handle
        (facts_commanded setup (host_step_of command moment
        (role_of facts.control.table.progress) facts.peer) facts) }
    ensures other { (view : View) (command : Command) (handle : ℕ) (facts : Facts)
        → is_about handle command ≡ false → leaves_other_links command ≡ true
        → KnowsAt view handle facts → KnowsAt (view_after view command) handle facts }
    ensures answered { (command : Command) (handle : ℕ) (moment : Moment) (role : Role) (peer : PeerFacts)
        → is_read_of_peer command ≡ true
        → length (events_at_once command handle peer)
        ≡ count_if (is_none (host_step_of command moment role peer)) }
{}

/// Where the view knows the ends of all open links, and a command is accepted, each of the steps
/// that it makes on them may come, if the words that a central draws fit LL_ENC_REQ.
pub fn all_steps_of_a_command_may_come()
    ensures { (view : View) (command : Command) (moment : Moment) (facts_at : ℕ → Facts)
        → status_of view command ≡ 0 → WordsFit moment
        → ((handle : ℕ) (link : Link) → link_in view.links handle ≡ Some link
        → KnowsAsks link (facts_at handle))
        → AllByRecursion (λ step. MayHost step.1 (facts_at step.0))
        (host_steps command moment view.links (λ handle. (facts_at handle).peer)) }
{}
