//! When complete packets are reported to a host, and in which order. The bodies only call the laws
//! that they rest on: the contracts are the laws.
ghost use Rattle.std.specs.Prelude.{◌≡◌, ◌≤◌, ◌∷◌, [], ℕ};
ghost use Rattle.journal_hosts.specs.Credits.{AllCreditsAreOfOne, AllCreditsAreOfSome};
ghost use Rattle.journal_hosts.specs.Credits.{AllCreditsAscend, AllEarlyCreditsComeAtOnce};
ghost use Rattle.journal_hosts.specs.Credits.{AllLateCreditsComeLast};
ghost use Rattle.journal_hosts.specs.Ends.{AllLateEndsAreReported};
ghost use Rattle.run_model.specs.Journal.{journal_of};
ghost use Rattle.run_model.specs.Run.{Given, history_of, run_of, setup_at};

/// In the journal of a run of two stations, with any number of links each, each Number Of Completed
/// Packets event is of at least one packet (Core 5.2, volume 4 part E, section 7.7.19).
pub fn each_credit_is_of_some_packets()
    ensures { (given : Given) → given.stations ≡ 0 ∷ 1 ∷ []
        → ((station : ℕ) → (setup_at given station).host_buffers ≤ 65535)
        → AllCreditsAreOfSome (journal_of (history_of (run_of given))) }
{}

/// In the journal of a run of two stations, with any number of links each, each Number Of Completed
/// Packets event before the first packet of a turn is of one packet, and comes as its side takes
/// octets of its host: since the line of these octets there are only packets to that host and lines
/// of links that the side shuts (Core 5.2, volume 4 part E, section 7.7.19; when it comes is our
/// choice).
pub fn each_early_credit_is_of_one_packet()
    ensures one { (given : Given) → given.stations ≡ 0 ∷ 1 ∷ []
        → AllCreditsAreOfOne (journal_of (history_of (run_of given))) }
    ensures at_once { (given : Given) → given.stations ≡ 0 ∷ 1 ∷ []
        → AllEarlyCreditsComeAtOnce (journal_of (history_of (run_of given))) }
{}

/// In the journal of a run of two stations, with any number of links each, the Number Of Completed
/// Packets events of a side after the first packet of a turn, in that turn, are in the order of
/// their handles, one for each handle at most (Core 5.2, volume 4 part E, section 7.7.19; the order
/// is our choice).
pub fn credits_of_a_turn_are_in_the_order_of_handles()
    ensures { (given : Given) → given.stations ≡ 0 ∷ 1 ∷ []
        → ((station : ℕ) → (setup_at given station).links ≤ 4096)
        → AllCreditsAscend (journal_of (history_of (run_of given))) }
{}

/// In the journal of a run of two stations, with any number of links each, after the first packet
/// of a turn such an event comes as the turn ends: after it, in that turn, there are only packets
/// to hosts, and lines of links that are shut. What its own host gets is more of these events, and
/// then, once its side shuts links, the Disconnection Complete event of a link just after its `shut`
/// line (Core 5.2, volume 4 part E, sections 7.7.5 and 7.7.19; when they come is our choice).
pub fn each_late_credit_comes_as_its_turn_ends()
    ensures { (given : Given) → given.stations ≡ 0 ∷ 1 ∷ []
        → AllLateCreditsComeLast (journal_of (history_of (run_of given))) }
{}

/// In the journal of a run of two stations, with any number of links each, each `shut` line after
/// the first packet of a turn has the Disconnection Complete event of its link just after it, where
/// the masks of the host let that through (Core 5.2, volume 4 part E, sections 7.3.1 and 7.7.5; that
/// it comes at once is our choice).
pub fn each_late_end_is_reported_at_once()
    ensures { (given : Given) → given.stations ≡ 0 ∷ 1 ∷ []
        → AllLateEndsAreReported (journal_of (history_of (run_of given))) }
{}
