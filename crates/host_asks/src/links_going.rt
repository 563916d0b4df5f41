//! The view of a host and the open links of its controller as these go on. The bodies do nothing:
//! the contracts are the laws.
ghost use Rattle.std.specs.Prelude.{◌≡◌, ◌<◌, ℕ, false, List, fold, length, Some, Err};
ghost use Rattle.ble_base.specs.declared.addresses.Address.{Address};
ghost use Rattle.ble_base.specs.declared.error_codes.ErrCode.{ErrCode};
ghost use Rattle.ble_base.specs.declared.notes.Note.TheVariants.{Opened, Shut, Up};
ghost use Rattle.hci_evt.specs.Event.{written};
ghost use Rattle.hci_evt.specs.declared.event.Event.TheVariants.{ParamRequest};
ghost use Rattle.procedure_events.specs.procedure_stages.declared.steps.Effect.{Effect};
ghost use Rattle.procedure_events.specs.procedure_stages.declared.steps.Effect.TheVariants.{AskHost};
ghost use Rattle.procedure_events.specs.procedure_stages.Steps.{asks_host};
ghost use Rattle.link_commands.specs.open_links.link_model.Setup.{Setup};
ghost use Rattle.link_commands.specs.open_links.link_model.Step.{Step};
ghost use Rattle.link_commands.specs.open_links.link_model.End.{notes_after};
ghost use Rattle.link_commands.specs.open_links.Hosts.{links_answered};
ghost use Rattle.link_commands.specs.open_links.OpenLinks.{Links, OpenLink, facts_in, link_after, link_at};
ghost use Rattle.link_commands.specs.open_links.OpenLinks.{with_change, with_link, without_link};
ghost use Rattle.host_view.specs.View.{View};
ghost use Rattle.host_view.specs.Noted.{view_noted};
ghost use Rattle.host_asks.specs.OpenEnds.{KnowsOpenEnds, KnowsOpenEndsOnceReported};
ghost use Rattle.host_asks.specs.Noting.{effect_after, is_of_host};

/// Where the view knows the ends of all open links, it knows them as a link is opened, and as one
/// is shut.
pub fn opened_and_shut_links_are_known()
    ensures opened { (view : View) (links : Links) (setup : Setup) (own peer : Address)
        → setup.link.handle < length view.links → setup.link.handle < length links
        → KnowsOpenEnds view links
        → KnowsOpenEnds (view_noted view (Opened setup.link.handle setup.link.role own peer))
        (with_link setup links) }
    ensures shut { (view : View) (links : Links) (handle : ℕ) (code : ErrCode)
        → KnowsOpenEnds view links
        → KnowsOpenEnds (view_noted view (Shut handle code)) (without_link handle links) }
{}

/// It knows them after each step of an end that its host does not make, with the notes of that
/// step, once the host has received a request that the step brought, whatever packets it receives
/// before; or where the request is withheld and refused at once.
pub fn links_that_go_on_stay_known()
    ensures step { (view : View) (links : Links) (link : OpenLink) (step : Step)
        → is_of_host step ≡ false → KnowsOpenEnds view links
        → link_at link.setup.link.handle links ≡ Some link
        → KnowsOpenEndsOnceReported link.setup.link.handle
        (effect_after link.setup (facts_in link) step)
        (fold view_noted view (notes_after link.setup (facts_in link) step))
        (with_change link.setup.link.handle (link_after step) links) }
    ensures packet { (handle : ℕ) (effect : Effect) (view : View) (links : Links)
        (octets : List ℕ) → KnowsOpenEndsOnceReported handle effect view links
        → KnowsOpenEndsOnceReported handle effect
        (view_noted view (Up (record { items = octets }))) links }
    ensures request { (view : View) (links : Links) (handle min max latency timeout : ℕ)
        → handle < 65536
        → KnowsOpenEndsOnceReported handle (AskHost min max latency timeout) view links
        → KnowsOpenEnds (view_noted view (Up (record {
          items =
              written (ParamRequest handle min max latency timeout);
        }))) links }
    ensures none { (handle : ℕ) (effect : Effect) (view : View) (links : Links)
        → asks_host effect ≡ false → KnowsOpenEndsOnceReported handle effect view links
        → KnowsOpenEnds view links }
    ensures refused { (handle : ℕ) (effect : Effect) (view : View) (links : Links)
        (link : OpenLink) (code : ErrCode) → link_at handle links ≡ Some link
        → KnowsOpenEndsOnceReported handle effect view links
        → KnowsOpenEnds view (links_answered handle (Err code) links) }
{}
