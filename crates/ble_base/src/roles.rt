//! The two sides of a run, and the two roles on a link.
ghost use Rattle.std.specs.Prelude.{◌≡◌};
ghost use Rattle.ble_base.specs.Side.{other_side};

/// One of the two controllers of a run.
#[derive(Clone, Copy, Debug, PartialEq, Eq, Default)]
pub enum Side {
    #[default]
    A,
    B,
}

impl Side {
    /// The other one of the two.
    pub fn other(self) -> Self
        ensures { result ≡ other_side self }
    {
        match self {
            Side::A => Side::B,
            Side::B => Side::A,
        }
    }
}

/// The role of a device on a link (Core 5.2, volume 6 part B, section 1.1). The central, there
/// called the master, sent the CONNECT_IND; the peripheral, there called the slave, received it.
#[derive(Clone, Copy, Debug, PartialEq, Eq, Default)]
pub enum Role {
    #[default]
    Central,
    Peripheral,
}
