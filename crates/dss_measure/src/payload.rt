// What is kept of a frame's payload so far: its length and its first two bytes.
ghost use Rattle.std.specs.Prelude.{◌<◌, ◌^◌, ◌+◌, ◌≡◌, ℕ, ◌≤◌, List, ◌++◌, length, get_or};
ghost use Rattle.wire.specs.Bytes.{part};
ghost use Rattle.dss_measure.specs.inner.Walking.{payload_so_far, extended_by};

use super::PayloadSoFar;

// The payload so far, with bytes behind it.
pub(crate) fn grown(sofar: PayloadSoFar, more: &[u8]) -> PayloadSoFar
    requires { sofar.len + length more.now < 2 ^ 64 }
    ensures { (p : List ℕ) → sofar ≡ payload_so_far p → result ≡ payload_so_far (p ++ more.now) }
{
    match sofar.len {
        0 => started(more),
        1 => PayloadSoFar {
            len: 1 + more.len(),
            second: wire::byte_at(more, 0),
            ..sofar
        },
        len => PayloadSoFar {
            len: len + more.len(),
            ..sofar
        },
    }
}

// A payload of these bytes.
pub(crate) fn started(bytes: &[u8]) -> PayloadSoFar
    ensures { result ≡ payload_so_far bytes.now }
{
    PayloadSoFar {
        len: bytes.len(),
        first: wire::byte_at(bytes, 0),
        second: wire::byte_at(bytes, 1),
    }
}

// Whether a payload so far starts an extended object.
pub(crate) fn starts_extended(sofar: PayloadSoFar) -> bool
    ensures { result ≡ extended_by sofar }
{
    sofar.len >= 4 && wire::u16_of(sofar.first, sofar.second) == 0x8004
}
