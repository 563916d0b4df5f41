//! A link with its two ends. An interval has six turns, and event 0 is in turn 2.
use crate::ends::End;
use std::alloc::AllocError;

/// The turns from one event to the next.
const INTERVAL: u32 = 6;

/// The turn of event 0.
const FIRST: u32 = 2;

/// What becomes of the two packets of a turn.
#[derive(Clone, Copy)]
pub(crate) enum Loss {
    None,
    OfCentral,
    OfPeripheral,
}

/// A link.
#[derive(Clone, Copy)]
pub(crate) struct Link {
    pub(crate) central: End,
    pub(crate) peripheral: End,
    /// Whether the last turn is followed by a second exchange of its event.
    goes_on: bool,
    event: u32,
}

impl Link {
    /// A new link.
    pub(crate) fn new(central: End, peripheral: End) -> Link {
        Link {
            central,
            peripheral,
            goes_on: false,
            event: 0,
        }
    }

    /// Whether packets go in a turn.
    pub(crate) fn is_heard(&self, turn: u32) -> bool {
        is_anchor(turn) || self.goes_on
    }

    /// A turn after the hosts were heard.
    pub(crate) fn turn(
        &mut self,
        turn: u32,
        loss: Loss,
        told: &mut String,
    ) -> Result<(), AllocError> {
        if is_anchor(turn) {
            self.event = turn.saturating_sub(FIRST) / INTERVAL;
            let has_more = self.begin(told)?;
            let heard = self.exchange(has_more, loss, told)?;
            self.goes_on = heard;
        } else if self.goes_on {
            self.fix();
            let has_more = self.central.send(self.event, told)?;
            self.exchange(has_more, loss, told)?;
            self.goes_on = false;
        }
        Ok(())
    }

    /// Fixes what both ends may send.
    fn fix(&mut self) {
        self.central.fix(self.event);
        self.peripheral.fix(self.event);
    }

    /// Both ends enter an event, A before B, and the central sends.
    fn begin(&mut self, told: &mut String) -> Result<bool, AllocError> {
        if self.central.side == "a" {
            let has_more = self.begin_central(told)?;
            self.begin_peripheral(told)?;
            Ok(has_more)
        } else {
            self.begin_peripheral(told)?;
            self.begin_central(told)
        }
    }

    fn begin_central(&mut self, told: &mut String) -> Result<bool, AllocError> {
        self.central.enter(self.event, told)?;
        self.central.fix(self.event);
        self.central.send(self.event, told)
    }

    fn begin_peripheral(&mut self, told: &mut String) -> Result<(), AllocError> {
        self.peripheral.enter(self.event, told)?;
        self.peripheral.fix(self.event);
        Ok(())
    }

    /// The packet of the central is sent: whether both are heard, and either says that there is more.
    fn exchange(
        &mut self,
        has_more: bool,
        loss: Loss,
        told: &mut String,
    ) -> Result<bool, AllocError> {
        if matches!(loss, Loss::OfCentral) {
            return Ok(false);
        }
        self.peripheral.hear(&mut self.central, told)?;
        let has_more_back = self.peripheral.send(self.event, told)?;
        if matches!(loss, Loss::OfPeripheral) {
            return Ok(false);
        }
        self.central.hear(&mut self.peripheral, told)?;
        Ok(has_more || has_more_back)
    }
}

/// Whether an event begins in a turn.
fn is_anchor(turn: u32) -> bool {
    turn % INTERVAL == FIRST
}
