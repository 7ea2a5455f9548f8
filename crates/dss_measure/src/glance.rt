// What can be told of a frame at a glance. Most frames are one segment behind which nothing can belong to it, and to measure one
// costs more than this.
ghost use Rattle.std.specs.Prelude.{◌≡◌, true, IfSome};
ghost use Rattle.dss_measure.specs.inner.Glancing.{Headed, StandsApart, Lone};

use super::left;
use dss_head::{DSS_CONTINUED, DSS_HEADER_LEN, DSS_LAST_TYPE, DSS_MAGIC};

// Whether a head stands at a place.
pub(crate) fn has_head(run: &[u8], at: usize) -> bool
    ensures { result ≡ true → Headed run.now at }
{
    if left(run, at) < DSS_HEADER_LEN {
        return false;
    }
    if run[at + 2] != DSS_MAGIC {
        return false;
    }
    matches!(run[at + 3] % 16, 1..=DSS_LAST_TYPE)
}

// Whether nothing that stands at a place can belong to a frame before it: fewer than six bytes are left, or a head has same
// correlation clear.
pub(crate) fn stands_apart(run: &[u8], at: usize) -> bool
    ensures { result ≡ true → StandsApart run.now at }
{
    if left(run, at) < DSS_HEADER_LEN {
        return true;
    }
    if !has_head(run, at) {
        return false;
    }
    run[at + 3] / 0x10 % 2 == 0
}

// The bytes of a frame of one segment behind which nothing can belong to it; none where a frame isn't told to be one.
pub(crate) fn lone_len(run: &[u8], at: usize) -> Option<usize>
    ensures { IfSome result (λ len. Lone run.now at len) }
{
    if !has_head(run, at) {
        return None;
    }
    let raw = wire::u16_at(run, at);
    if raw == DSS_CONTINUED {
        return None;
    }
    let len = usize::from(raw);
    if len < DSS_HEADER_LEN {
        return None;
    }
    if left(run, at) < len {
        return None;
    }
    if !stands_apart(run, at + len) {
        return None;
    }
    Some(len)
}
