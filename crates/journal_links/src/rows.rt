//! Worked examples, which the definitions compute.
ghost use Rattle.std.specs.Prelude.{◌≡◌, ◌+◌, ◌*◌, [], ◌∷◌, ◌++◌, Some, None};
ghost use Rattle.ble_base.specs.declared.roles.Side.TheVariants.{A, B};
ghost use Rattle.journal.specs.declared.entries.Entry.TheVariants.{Applied};
ghost use Rattle.journal_links.specs.Begun.{link_numbered, links_begun};
ghost use Rattle.journal_links.specs.Changes.{changes_of};
ghost use Rattle.journal_links.specs.Entered.{anchor_in, channel_in};
ghost use Rattle.journal_links.specs.Rows.{
  answered_by,
  connected_late,
  hopping_link,
  offered_once,
  one_link,
  unaccepted_packet,
  unoffered_packet,
  update_in_force,
};
ghost use Rattle.link_changes.specs.Worked.{update_at};
ghost use Rattle.run_laws.specs.run_model.Rows.{connect_packet, connectable_packet, one_event_journal};

/// A journal with one CONNECT_IND has one link. Its first event is two slots after that, and its
/// next event an interval of 24 slots later, on the channels 25 and 20.
pub fn worked_links()
    ensures links { links_begun one_event_journal ≡ one_link ∷ [] }
    ensures one { link_numbered 1 one_event_journal ≡ Some one_link }
    ensures none { link_numbered 0 one_event_journal ≡ None }
    ensures two { link_numbered 2 one_event_journal ≡ None }
    ensures first { (anchor_in one_link [] 0 ≡ 2) × (channel_in one_link [] 0 ≡ 25) }
    ensures second { (anchor_in one_link [] 1 ≡ 26) × (channel_in one_link [] 1 ≡ 20) }
{}

/// A link has channel selection algorithm #1 where one of the two packets does not offer #2, or the
/// CONNECT_IND answers no advertisement of its turn; of several advertisements the last one counts.
/// With a hop of 5 its first events are on the channels 5 and 10.
pub fn worked_algorithms()
    ensures both { links_begun (answered_by connectable_packet connect_packet) ≡ one_link ∷ [] }
    ensures advertiser { links_begun (answered_by unoffered_packet connect_packet) ≡ hopping_link ∷ [] }
    ensures initiator { links_begun (answered_by connectable_packet unaccepted_packet) ≡ hopping_link ∷ [] }
    ensures late { links_begun connected_late ≡ record hopping_link { slot = 1 } ∷ [] }
    ensures last { links_begun offered_once ≡ hopping_link ∷ [] }
    ensures first { (anchor_in hopping_link [] 0 ≡ 2) × (channel_in hopping_link [] 0 ≡ 5) }
    ensures second { (anchor_in hopping_link [] 1 ≡ 26) × (channel_in hopping_link [] 1 ≡ 10) }
{}

/// An update that the central sends holds at the central from the line on that says so; at the
/// peripheral that took it, before such a line, it does not, and on another link there is none.
pub fn worked_changes()
    ensures central { changes_of 1 one_link B update_in_force ≡ update_at 6 6 ∷ [] }
    ensures peripheral { changes_of 1 one_link A update_in_force ≡ [] }
    ensures taken { changes_of 1 one_link A (update_in_force ++ Applied A 1 1 6 ∷ [])
        ≡ update_at 6 6 ∷ [] }
    ensures other { changes_of 2 one_link B update_in_force ≡ [] }
    ensures interval { anchor_in one_link (changes_of 1 one_link B update_in_force) 7 ≡ 2 + 6 * 24 + 8 }
{}
