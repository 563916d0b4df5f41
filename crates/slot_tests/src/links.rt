//! One end of a link on which no octet of data and no control PDU goes.

/// The interval in slots, the latency in events, and the supervision timeout in units of 8 slots.
#[derive(Clone, Copy)]
pub(crate) struct Timing {
    pub(crate) interval: u32,
    pub(crate) latency: u32,
    pub(crate) timeout: u32,
}

/// What may be under a handle.
#[derive(Clone, Copy)]
pub(crate) struct Link {
    /// The number of the link, or 0 where there is none.
    pub(crate) number: u32,
    /// Which access address it has.
    pub(crate) address: u32,
    pub(crate) is_central: bool,
    timing: Timing,
    /// The slots of its CONNECT_IND and of its next anchor.
    opened: u32,
    next: u32,
    /// How many events it entered.
    events: u32,
    pub(crate) last_served: u32,
    /// The slot and the event of the last good packet, if there was one.
    heard: Option<(u32, u32)>,
}

impl Link {
    /// No link.
    pub(crate) fn none() -> Link {
        Link {
            number: 0,
            address: 0,
            is_central: false,
            timing: Timing {
                interval: 0,
                latency: 0,
                timeout: 0,
            },
            opened: 0,
            next: 0,
            events: 0,
            last_served: 0,
            heard: None,
        }
    }

    /// The central of a link with this number and address whose CONNECT_IND is in this slot.
    pub(crate) fn central(number: u32, address: u32, timing: Timing, slot: u32) -> Link {
        Link {
            number,
            address,
            is_central: true,
            timing,
            opened: slot,
            next: slot.saturating_add(2),
            last_served: slot,
            ..Link::none()
        }
    }

    /// The peripheral of the same link.
    pub(crate) fn peripheral(&self) -> Link {
        Link {
            is_central: false,
            ..*self
        }
    }

    pub(crate) fn is_open(&self) -> bool {
        self.number != 0
    }

    /// The reason for which it ends at the start of the turn in a slot: nothing good was heard for
    /// six intervals since its CONNECT_IND, or for the supervision timeout since the last good packet.
    pub(crate) fn ends_in(&self, slot: u32) -> Option<&'static str> {
        let (since, slots, reason) = match self.heard {
            None => (self.opened, self.timing.interval.saturating_mul(6), "3e"),
            Some((heard, _)) => (heard, self.timing.timeout.saturating_mul(8), "08"),
        };
        if self.is_open() && slot.saturating_sub(since) >= slots {
            Some(reason)
        } else {
            None
        }
    }

    /// Whether its next anchor is in a slot.
    pub(crate) fn enters_in(&self, slot: u32) -> bool {
        self.is_open() && self.next == slot
    }

    /// It enters its next event. It gives the number of that.
    pub(crate) fn enter(&mut self) -> u32 {
        let event = self.events;
        self.events = event.saturating_add(1);
        self.next = self.next.saturating_add(self.timing.interval);
        event
    }

    /// The event that it entered last.
    fn event(&self) -> u32 {
        self.events.saturating_sub(1)
    }

    /// Whether it wants the radio for the event that it entered last: a peripheral skips one after it
    /// heard a good packet in an event that is not further back than the latency.
    pub(crate) fn wants(&self) -> bool {
        match self.heard {
            Some((_, event)) if !self.is_central => {
                self.event().saturating_sub(event) > self.timing.latency
            }
            _ => true,
        }
    }

    /// It hears a good packet in a slot.
    pub(crate) fn hear(&mut self, slot: u32) {
        self.heard = Some((slot, self.event()));
    }
}
