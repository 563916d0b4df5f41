//! Lines of links and events that do not follow from a CONNECT_IND, or do not come in their order.
ghost use Rattle.journal_pdus.specs.journal_acks.EventOrder.{AllAreInOrder};
ghost use Rattle.journal_pdus.specs.journal_links.Entered.{AllAreEntered};
ghost use Rattle.journal_pdus.specs.Lawful.{AllAreOpened};
ghost use Rattle.wrong_journals.specs.Events as wrong;

/// A link is opened in the turn of its CONNECT_IND, by the side that sent it as the central; and an
/// event is entered in the turn of its anchor and on its channel, by the algorithm that both sides
/// offer.
pub fn wrong_links_are_refused()
    ensures roles { AllAreOpened wrong.roles_exchanged → ⊥ }
    ensures late { AllAreOpened wrong.opened_late → ⊥ }
    ensures no_connect_ind { AllAreOpened wrong.opened_from_nothing → ⊥ }
    ensures another_turn { AllAreEntered wrong.entered_late → ⊥ }
    ensures another_channel { AllAreEntered wrong.entered_elsewhere → ⊥ }
    ensures hopping { AllAreEntered wrong.entered_by_hopping → ⊥ }
    ensures unoffered { AllAreEntered wrong.entered_unoffered → ⊥ }
    ensures another_event { AllAreEntered wrong.entered_misnumbered → ⊥ }
{}

/// A side enters each event of a link once, and leaves none out, whatever the other side enters.
pub fn wrong_orders_of_events_are_refused()
    ensures twice { AllAreInOrder wrong.entered_twice → ⊥ }
    ensures left { AllAreInOrder wrong.left_out → ⊥ }
    ensures other { AllAreInOrder wrong.entered_by_other → ⊥ }
{}
