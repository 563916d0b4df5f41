//! How far a chart has come, line by line.
ghost use Rattle.std.specs.Prelude.{◌≡◌, ◌+◌, ◌<◌, ◌≤◌, ◌^◌, [], ◌∷◌, MatchOption, length};
ghost use Rattle.chart.specs.Chart.{first_place, height_of, last_row, place_after, place_after_all};
ghost use Rattle.chart.specs.Chart.{row_after_turns, top_of};

use crate::layout::{MARGIN, ROW, TOP};
use journal::Entry;

/// How far a chart has come.
#[derive(Clone, Copy, Debug, PartialEq, Eq)]
pub struct Place {
    /// How many rows there are.
    pub row: u64,
    /// How many turns have begun with no line since.
    pub waiting: u64,
    /// The slot of the last of them.
    pub slot: u64,
}

impl Place {
    /// The place before the first line.
    pub fn first() -> Place
        ensures { result ≡ first_place }
    {
        Place {
            row: 0,
            waiting: 0,
            slot: 0,
        }
    }

    /// The row of the next line, after that of the turns that had none.
    pub(crate) fn row_after_turns(self) -> u64
        requires { self.row < 2 ^ 32 }
        ensures { result ≡ row_after_turns self }
    {
        if self.waiting > 1 {
            self.row + 1
        } else {
            self.row
        }
    }

    /// The place after a line.
    pub(crate) fn after(self, entry: &Entry) -> Place
        requires { self.row + self.waiting < 2 ^ 32 }
        ensures { result ≡ place_after self entry.now }
    {
        match entry {
            Entry::Turn { slot, .. } => Place {
                row: self.row,
                waiting: self.waiting + 1,
                slot: *slot,
            },
            _ => Place {
                row: self.row_after_turns() + 1,
                waiting: 0,
                slot: self.slot,
            },
        }
    }

    /// The place after some lines.
    #[tactic(auto, using(crate::proofs::RowCounts::one_more_at_most))]
    pub fn after_all(self, entries: &[Entry]) -> Place
        requires { self.row + self.waiting + length entries.now < 2 ^ 32 }
        ensures { result ≡ place_after_all self entries.now }
    {
        let mut place = self;
        let mut rest = entries;
        while let Some((entry, later)) = split_line(rest) {
            place = place.after(entry);
            rest = later;
        }
        place
    }

    /// The first row after all of the chart.
    pub(crate) fn last_row(self) -> u64
        requires { self.row < 2 ^ 32 }
        ensures { result ≡ last_row self }
    {
        if self.waiting > 0 {
            self.row + 1
        } else {
            self.row
        }
    }

    /// How high the drawing is that ends here.
    pub(crate) fn height(self) -> u64
        requires { self.row < 2 ^ 32 }
        ensures { result ≡ height_of self }
    {
        top_of(self.last_row()) + MARGIN
    }
}

/// The first of some lines, and those after it.
pub(crate) fn split_line(entries: &[Entry]) -> Option<(&Entry, &[Entry])>
    ensures { MatchOption result (entries.now ≡ [])
        (λ parts. entries.now ≡ parts.0.now ∷ parts.1.now) }
{
    match entries {
        [entry, later @ ..] => Some((entry, later)),
        [] => None,
    }
}

/// The top of a row.
pub(crate) fn top_of(row: u64) -> u64
    requires { row ≤ 2 ^ 32 }
    ensures { result ≡ top_of row }
{
    TOP + ROW * row
}
