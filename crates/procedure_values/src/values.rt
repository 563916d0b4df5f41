//! Values of the PDUs that this product sends, which are in their ranges.
ghost use Rattle.std.specs.Prelude.{◌≡◌, ◌+◌, ◌*◌, ◌<◌, ◌≤◌, ◌↔◌, IsTrue};
ghost use Rattle.data_pdu.specs.Ranges.{IsInRange};
ghost use Rattle.procedure_values.specs.Values.{IsParams, IsPayloadMax, are_valid};

use data_pdu::Ctrl;
use std::marker::Model;

/// The parameters that a connection update sets (Core 5.2, volume 6 part B, section 5.1.1), which a
/// link may have.
#[derive(Clone, Copy)]
pub struct NewParams {
    interval: u16,
    latency: u16,
    timeout: u16,
}

impl Model for NewParams {
    ghost use Rattle.procedure_values.specs.Values.{ParamValues, IsParams};

    ghost Value = { ParamValues };

    ghost view = { λ p. record { interval = p.interval; latency = p.latency; timeout = p.timeout } };

    ghost invariant = { λ p. IsParams (record {
      interval = p.interval;
      latency = p.latency;
      timeout = p.timeout;
    }) };

    ghost inverse = { λ p. record { interval = p.interval; latency = p.latency; timeout = p.timeout } };
}

impl NewParams {
    /// These parameters: interval in 1.25 ms, latency in connection events, timeout in 10 ms.
    pub fn new(interval: u16, latency: u16, timeout: u16) -> Self
        requires { IsParams (record {
          interval = interval;
          latency = latency;
          timeout = timeout;
        }) }
        ensures { result ≡ record { interval = interval; latency = latency; timeout = timeout } }
    {
        NewParams {
            interval,
            latency,
            timeout,
        }
    }

    /// The interval, in 1.25 ms.
    pub fn interval(&self) -> u16
        ensures value { result ≡ self.now.interval }
        ensures in_range { IsParams self.now }
    {
        self.interval
    }

    /// The latency, in connection events.
    pub fn latency(&self) -> u16
        ensures { result ≡ self.now.latency }
    {
        self.latency
    }

    /// The timeout, in 10 ms.
    pub fn timeout(&self) -> u16
        ensures { result ≡ self.now.timeout }
    {
        self.timeout
    }
}

/// The most octets of a payload that an end receives or transmits: 27 to 251 (Core 5.2, volume 6
/// part B, section 4.5.10).
#[derive(Clone, Copy)]
pub struct PayloadMax {
    octets: u8,
}

impl Model for PayloadMax {
    ghost use Rattle.std.specs.Prelude.{ℕ};
    ghost use Rattle.procedure_values.specs.Values.{IsPayloadMax};

    ghost Value = { ℕ };

    ghost view = { λ m. m.octets };

    ghost invariant = { λ m. IsPayloadMax m.octets };

    ghost inverse = { λ n. record { octets = n } };
}

impl PayloadMax {
    /// This number of octets.
    pub fn new(octets: u16) -> Self
        requires { IsPayloadMax octets }
        ensures { result ≡ octets }
    {
        PayloadMax {
            octets: octets as u8,
        }
    }

    /// The number of octets.
    pub fn octets(&self) -> u16
        ensures value { result ≡ self.now }
        ensures in_range { IsPayloadMax result }
    {
        u16::from(self.octets)
    }
}

/// A PDU of the encryption procedures, or LL_TERMINATE_IND where a key is missing, with its fields
/// in their ranges.
#[derive(Clone, Copy)]
pub struct CipherPdu {
    ctrl: Ctrl,
}

impl Model for CipherPdu {
    ghost use Rattle.data_pdu.specs.declared.ctrl.Ctrl.{Ctrl};
    ghost use Rattle.data_pdu.specs.Ranges.{IsInRange};

    ghost Value = { Ctrl };

    ghost view = { λ c. c.ctrl };

    ghost invariant = { λ c. IsInRange c.ctrl };

    ghost inverse = { λ ctrl. record { ctrl = ctrl } };
}

impl CipherPdu {
    /// This PDU.
    pub fn new(ctrl: Ctrl) -> Self
        requires { IsInRange ctrl }
        ensures { result ≡ ctrl }
    {
        CipherPdu { ctrl }
    }

    /// The PDU.
    pub fn ctrl(&self) -> Ctrl
        ensures value { result ≡ self.now }
        ensures in_range { IsInRange result }
    {
        self.ctrl
    }
}

/// Whether the timeout is longer than two intervals with the latency between them.
fn outlasts(timeout: u16, interval: u16, latency: u16) -> bool
    requires { latency ≤ 499 }
    ensures { IsTrue result ↔ ((1 + latency) * interval < timeout * 4) }
{
    u32::from(timeout) * 4 > (1 + u32::from(latency)) * u32::from(interval)
}

/// Whether a link may have these parameters (Core 5.2, volume 4 part E, section 7.8.18).
pub fn are_valid(min: u16, max: u16, latency: u16, timeout: u16) -> bool
    ensures { result ≡ are_valid min max latency timeout }
{
    6 <= min
        && max <= 3200
        && min <= max
        && latency <= 499
        && 10 <= timeout
        && timeout <= 3200
        && outlasts(timeout, max, latency)
}
