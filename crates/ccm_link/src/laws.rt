//! Laws of sealed payloads, for any key, nonce and additional data. The body does nothing: the
//! contract is the law.

ghost use Rattle.std.specs.Prelude.{◌≡◌, ◌↔◌, ℕ, ◌+◌, ◌≤◌, IsTrue, List, length};
ghost use Rattle.ccm_link.specs.Ccm.{opened_payload, sealed_payload};
ghost use Rattle.ccm_link.specs.Payload.{IsGenuine, is_genuine};

/// A sealed payload opens to the message that was sealed, only sealed payloads are genuine, and the
/// test finds exactly the genuine ones.
pub fn sealed_payloads()
    ensures opens { (key nonce extra message : List ℕ)
        → opened_payload key nonce (sealed_payload key nonce extra message) ≡ message }
    ensures genuine { (key nonce extra message : List ℕ) → 1 ≤ length message
        → IsGenuine key nonce extra (sealed_payload key nonce extra message) }
    ensures only { (key nonce extra octets : List ℕ) → IsGenuine key nonce extra octets
        → octets ≡ sealed_payload key nonce extra (opened_payload key nonce octets) }
    ensures tested { (key nonce extra octets : List ℕ)
        → IsTrue (is_genuine key nonce extra octets) ↔ IsGenuine key nonce extra octets }
    ensures longer { (key nonce extra message : List ℕ)
        → length (sealed_payload key nonce extra message) ≡ length message + 4 }
{}
