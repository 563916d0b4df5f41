//! Worked examples and wrong ones, which the definitions compute.
ghost use Rattle.std.specs.Prelude.{◌≡◌, false, List, ◌++◌, Some};
ghost use Rattle.std.specs.List.{All};
ghost use Rattle.ble_base.specs.declared.roles.Role.TheVariants.{Peripheral};
ghost use Rattle.ble_base.specs.declared.roles.Side.TheVariants.{A, B};
ghost use Rattle.journal.specs.declared.entries.Entry.{Entry};
ghost use Rattle.journal_agreement.specs.Indications.{FollowsCentral, indications_sent};
ghost use Rattle.journal_agreement.specs.Rows.{
  another_followed,
  taken_ahead,
  taken_late,
  update_followed,
};
ghost use Rattle.link_indications.specs.InTime.{IsTakenInTime};
ghost use Rattle.journal_agreement.specs.Taken.{AllAreReadAsSent, AllCameInTime, IsLastSent};
ghost use Rattle.journal_data.specs.Followed.{Mixed, none_mixed};
ghost use Rattle.journal_data.specs.journal_links.Begun.{LinkBegun, link_numbered};
ghost use Rattle.journal_data.specs.journal_links.Changes.{notes_said, role_on};
ghost use Rattle.journal_data.specs.journal_links.Rows.{one_link, update_sent};
ghost use Rattle.link_changes.specs.Noted.{takings_noted};
ghost use Rattle.link_changes.specs.Worked.{update_at};

/// The central sends an update, and the peripheral takes it. Once it holds, both ends follow it. A
/// peripheral that follows another one does not follow its central.
pub fn worked_indications()
    ensures central { FollowsCentral 1 one_link B update_followed }
    ensures peripheral { FollowsCentral 1 one_link A update_followed }
    ensures another { FollowsCentral 1 one_link A another_followed → ⊥ }
{}

/// The update that the peripheral takes is the one that its central sent last, and it came in time.
/// After any lines that begin the link, a peripheral that takes another update, or reads the same
/// Instant as that of another event, does not read what its central sent; and one that enters an
/// event after it took an update whose Instant had passed has one that did not come in time. What is
/// read is looked at where no packet of the link is mixed.
pub fn worked_readings()
    ensures read { IsLastSent (update_at 6 6) (indications_sent 1 one_link update_sent) }
    ensures in_time { All IsTakenInTime (takings_noted Peripheral (notes_said A 1 update_followed)) }
    ensures another { (front : List Entry) → link_numbered 1 front ≡ Some one_link
        → AllAreReadAsSent none_mixed (front ++ another_followed) → ⊥ }
    ensures ahead { (front : List Entry) → link_numbered 1 front ≡ Some one_link
        → AllAreReadAsSent none_mixed (front ++ taken_ahead) → ⊥ }
    ensures unmixed { (front : List Entry) (mixed : Mixed) → link_numbered 1 front ≡ Some one_link
        → mixed 1 (front ++ update_sent) ≡ false
        → AllAreReadAsSent mixed (front ++ another_followed) → ⊥ }
    ensures late { (front : List Entry) (link : LinkBegun) → link_numbered 1 front ≡ Some link
        → role_on link A ≡ Peripheral → AllCameInTime (front ++ taken_late) → ⊥ }
{}
