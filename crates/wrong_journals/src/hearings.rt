//! CONNECT_INDs that are missed, or whose links the advertiser does not open, or opens without having
//! heard them.
ghost use Rattle.journal_pdus.specs.journal_hearings.Openings.{AllHeardLinksAreOpened};
ghost use Rattle.journal_pdus.specs.journal_hearings.Openings.{OpenedLinksWereToOpen};
ghost use Rattle.journal_pdus.specs.journal_hearings.Requests.{AllRequestsAreHeard};
ghost use Rattle.wrong_journals.specs.Hearings as wrong;

/// An advertiser hears a CONNECT_IND that passes, opens the link of one that it heard and that
/// answers its advertisement, and of no other.
pub fn wrong_hearings_are_refused()
    ensures missed { AllRequestsAreHeard wrong.connect_missed → ⊥ }
    ensures lost { OpenedLinksWereToOpen wrong.opened_though_lost → ⊥ }
    ensures broken { OpenedLinksWereToOpen wrong.opened_though_broken → ⊥ }
    ensures unasked { OpenedLinksWereToOpen wrong.opened_unasked → ⊥ }
    ensures unopened { AllHeardLinksAreOpened wrong.heard_unopened → ⊥ }
{}
