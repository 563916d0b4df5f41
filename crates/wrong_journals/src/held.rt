//! Lines of links that are not open, and links that are opened under a wrong handle.
ghost use Rattle.journal_pdus.specs.journal_data.Held.{LinesAreOfOpenLinks};
ghost use Rattle.wrong_journals.specs.Held as wrong;

/// The lines of a link are between its `open` and its `shut` line, and it is opened once, under the
/// least handle that is free.
pub fn lines_of_no_link_are_refused()
    ensures sent { LinesAreOfOpenLinks wrong.sent_before → ⊥ }
    ensures took { LinesAreOfOpenLinks wrong.took_after → ⊥ }
    ensures entered { LinesAreOfOpenLinks wrong.entered_unopened → ⊥ }
    ensures shut { LinesAreOfOpenLinks wrong.shut_twice → ⊥ }
    ensures opened { LinesAreOfOpenLinks wrong.opened_twice → ⊥ }
    ensures in_use { LinesAreOfOpenLinks wrong.handle_in_use → ⊥ }
    ensures skipped { LinesAreOfOpenLinks wrong.handle_skipped → ⊥ }
{}

/// What a host receives names an open link, with the length of its data, or one handle.
pub fn packets_of_no_link_are_refused()
    ensures data { LinesAreOfOpenLinks wrong.data_of_none → ⊥ }
    ensures length { LinesAreOfOpenLinks wrong.data_cut → ⊥ }
    ensures credit { LinesAreOfOpenLinks wrong.credit_of_none → ⊥ }
    ensures two { LinesAreOfOpenLinks wrong.credit_of_two → ⊥ }
{}
