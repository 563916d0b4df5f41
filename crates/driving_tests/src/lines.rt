//! The lines of one side in a journal, and the notes that they say. A line names a link by its
//! number, and a note by its handle.
use ble_base::{Note, Outbox, Role, Side};
use journal::Entry;

/// The lines of a side that no note was compared with yet, and the link under each handle.
#[derive(Drop)]
pub(crate) struct Lines<'s> {
    side: Side,
    entries: &'s [Entry],
    links: [u64; 3],
}

impl<'s> Lines<'s> {
    /// All lines of a side.
    pub(crate) fn new(side: Side, entries: &'s [Entry]) -> Self {
        Lines {
            side,
            entries,
            links: [0; 3],
        }
    }

    /// Whether the next lines say these notes, in order.
    pub(crate) fn say(&mut self, notes: &Outbox) -> bool {
        let mut are_same = true;
        for note in notes.as_slice() {
            are_same = self.says_next(note) && are_same;
        }
        are_same
    }

    /// Whether no line is left.
    pub(crate) fn are_over(&self) -> bool {
        let (next, _) = next_of(self.entries, self.side);
        next.is_none()
    }

    /// Whether the next line says this note.
    fn says_next(&mut self, note: &Note) -> bool {
        let (next, rest) = next_of(self.entries, self.side);
        self.entries = rest;
        match next {
            None => false,
            Some(entry) => self.says(entry, note),
        }
    }

    /// Whether a line says a note. A link that is opened is under its handle from then on.
    fn says(&mut self, entry: &Entry, note: &Note) -> bool {
        match (entry, note) {
            (Entry::Up { octets, .. }, Note::Up(packet)) => octets.as_slice() == packet.as_slice(),
            (
                Entry::Opened {
                    link,
                    handle,
                    role,
                    ..
                },
                Note::Opened {
                    handle: noted,
                    role: noted_role,
                    ..
                },
            ) => {
                self.learn(*handle, *link);
                handle == noted && is_central(*role) == is_central(*noted_role)
            }
            _ => self.says_of_link(entry, note),
        }
    }

    /// Whether a line says a note of a link that is open.
    fn says_of_link(&self, entry: &Entry, note: &Note) -> bool {
        match (entry, note) {
            (
                Entry::Shut { link, reason, .. },
                Note::Shut {
                    handle,
                    reason: noted,
                },
            ) => self.has(*handle, *link) && reason.0 == noted.0,
            (
                Entry::Enter {
                    link,
                    event,
                    channel,
                    ..
                },
                Note::Enter {
                    handle,
                    event: noted,
                    channel: noted_channel,
                },
            ) => self.has(*handle, *link) && *event == noted.0 && channel == noted_channel,
            (
                Entry::Applied {
                    link,
                    number,
                    event,
                    ..
                },
                Note::Applied {
                    handle,
                    number: noted,
                    event: noted_event,
                },
            ) => self.has(*handle, *link) && number == noted && *event == noted_event.0,
            _ => self.says_of_pdu(entry, note) || self.says_of_procedure(entry, note),
        }
    }

    /// Whether a line says a note of a PDU that is sent or taken.
    fn says_of_pdu(&self, entry: &Entry, note: &Note) -> bool {
        match (entry, note) {
            (
                Entry::Sent {
                    link,
                    number,
                    llid,
                    body,
                    ..
                },
                Note::Sent {
                    handle,
                    number: noted,
                    llid: noted_llid,
                    body: noted_body,
                },
            )
            | (
                Entry::Took {
                    link,
                    number,
                    llid,
                    body,
                    ..
                },
                Note::Took {
                    handle,
                    number: noted,
                    llid: noted_llid,
                    body: noted_body,
                },
            ) => {
                self.has(*handle, *link)
                    && number == noted
                    && llid == noted_llid
                    && body.as_slice() == noted_body.as_slice()
            }
            _ => false,
        }
    }

    /// Whether a line says a note of a procedure.
    fn says_of_procedure(&self, entry: &Entry, note: &Note) -> bool {
        match (entry, note) {
            (
                Entry::Refused {
                    link,
                    kind,
                    code,
                    ..
                },
                Note::Refused {
                    handle,
                    kind: noted,
                    code: noted_code,
                },
            ) => self.has(*handle, *link) && kind == noted && code.0 == noted_code.0,
            (
                Entry::Began { link, kind, .. },
                Note::Began {
                    handle,
                    kind: noted,
                },
            )
            | (
                Entry::Done { link, kind, .. },
                Note::Done {
                    handle,
                    kind: noted,
                },
            ) => self.has(*handle, *link) && kind == noted,
            _ => false,
        }
    }

    /// The link is under this handle from here on.
    fn learn(&mut self, handle: u16, link: u64) {
        if let Some(place) = self.links.get_mut(usize::from(handle)) {
            *place = link;
        }
    }

    /// Whether the link is the one under this handle.
    fn has(&self, handle: u16, link: u64) -> bool {
        self.links.get(usize::from(handle)).copied() == Some(link)
    }
}

fn is_central(role: Role) -> bool {
    matches!(role, Role::Central)
}

fn is_a(side: Side) -> bool {
    matches!(side, Side::A)
}

/// The next line of a side that says a note, and what comes after it.
fn next_of(entries: &[Entry], side: Side) -> (Option<&Entry>, &[Entry]) {
    match entries.iter().position(|entry| is_of(entry, side)) {
        None => (None, &[]),
        Some(place) => (
            entries.get(place),
            entries.get(place.saturating_add(1)..).unwrap_or(&[]),
        ),
    }
}

/// Whether a line says a note of this side.
fn is_of(entry: &Entry, side: Side) -> bool {
    match entry {
        Entry::Turn { .. } | Entry::Fed { .. } | Entry::Air { .. } => false,
        Entry::Up { side: of, .. }
        | Entry::Opened { side: of, .. }
        | Entry::Shut { side: of, .. }
        | Entry::Sent { side: of, .. }
        | Entry::Took { side: of, .. }
        | Entry::Enter { side: of, .. }
        | Entry::Applied { side: of, .. }
        | Entry::Began { side: of, .. }
        | Entry::Refused { side: of, .. }
        | Entry::Done { side: of, .. } => is_a(*of) == is_a(side),
    }
}
