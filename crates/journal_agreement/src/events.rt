//! Both ends of a link enter each event alike, by the lines of a journal alone. The bodies are
//! empty: the contracts are the laws.
ghost use Rattle.std.specs.Prelude.{List};
ghost use Rattle.journal.specs.declared.entries.Entry.{Entry};
ghost use Rattle.journal_agreement.specs.Indications.{AllAreEnteredAlike, AllFollowCentral};
ghost use Rattle.journal_agreement.specs.Taken.{AllAreReadAsSent, AllCameInTime};
ghost use Rattle.journal_data.specs.Delivered.{AllDataArrives};
ghost use Rattle.journal_data.specs.Followed.{Mixed, StaysMixed};
ghost use Rattle.journal_data.specs.journal_links.Entered.{AllAreEntered};

/// In any journal in which each event is entered in the turn of its anchor, on its channel, and in
/// which the indications in force at an end are the first that the central sent: where two lines
/// say that an event of one link is entered, as those of its two ends, and the same number of
/// indications is in force at both, they are in one turn and name one channel, and the link has the
/// same parameters at both (Core 5.2, volume 6 part B, sections 4.5.1, 4.5.8 and 5.5). Each is so
/// up to the first packet of the link that is mixed.
pub fn ends_that_follow_the_central_enter_alike()
    ensures { (mixed : Mixed) (journal : List Entry) → AllAreEntered journal
        → AllFollowCentral mixed journal → AllAreEnteredAlike mixed journal }
{}

/// In any journal in which PDUs arrive in order, in which a peripheral that takes an indication in
/// time reads the change that its central sent last, and in which a peripheral enters an event only
/// where each indication that it took came in time: the indications in force at an end are the
/// first that the central sent, from the same events on (Core 5.2, volume 6 part B, sections 4.5.9,
/// 5.1.1, 5.1.2 and 5.5). Each is so up to the first packet of the link that is mixed.
pub fn ends_that_take_in_order_follow_the_central()
    ensures { (mixed : Mixed) (journal : List Entry) → StaysMixed mixed
        → AllDataArrives mixed journal → AllAreReadAsSent mixed journal → AllCameInTime journal
        → AllFollowCentral mixed journal }
{}
