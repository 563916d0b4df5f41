//! What holds over every list of calls of a [`crate::TxBank`].

ghost use Rattle.std.specs.Prelude.{ℕ, ◌<◌, List};
ghost use Rattle.acl_banks.specs.Banks.{Bank};
ghost use Rattle.acl_banks.specs.History.{Call, IsEmptyBank, AreAllowed, IsFaithful, run_of, no_past};

/// Whatever calls are made for whatever links, on each link the octets that were sent are the
/// first ones that the host gave, those that were acknowledged are the first of these, and the
/// packets that were counted are exactly those whose last octet was acknowledged. An octet counts
/// with its mark as the first of a start.
pub fn octets_are_sent_in_order()
    ensures { (buffers link : ℕ) (bank : Bank) (calls : List Call) → IsEmptyBank bank → link < 65536
        → AreAllowed buffers bank calls
        → IsFaithful (run_of buffers link (record { bank = bank; past = no_past }) calls) link }
{}
