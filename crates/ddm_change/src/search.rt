// The walk over all parameters of data that stands in a payload from one of its bytes on.
ghost use Rattle.std.specs.Prelude.{◌≡◌, ◌+◌, ◌≤◌, ◌<◌, ◌^◌, length, drop};
ghost use Rattle.ddm_change.specs.inner.Searching.{param_of, meets, searched, found_as};

use super::{Param, Spot};
use answer::{Refusal, Refused};
use ddm_length::{Marshaled, Payload};

// The parameter at a payload byte: its length and code point; none where none is sound or its raw length is 0x8004.
pub(crate) fn param_in<P: Payload>(payload: &P, at: usize) -> Option<Param>
    requires { length (P.bytes payload.now) < 2 ^ 64 }
    ensures { result ≡ param_of (drop at (P.bytes payload.now)) }
{
    let Marshaled { total, .. } = ddm_length::measure_in(payload, at, 0).ok()?;
    if ddm_length::u16_in(payload, at) == 0x8004 {
        return None;
    }
    let code_point = ddm_length::u16_in(payload, at + 2);
    Some(Param { code_point, total })
}

// What has been met behind a parameter: the first stays.
pub(crate) fn met_behind(met: Option<Spot>, wanted: u16, param: Param, at: usize) -> Option<Spot>
    requires { at + param.total < 2 ^ 64 }
    ensures { result ≡ meets met wanted param.code_point at param.total }
{
    if met.is_none() && param.code_point == wanted {
        return Some(Spot {
            from: at,
            to: at + param.total,
        });
    }
    met
}

// The first parameter with a code point, once all of them are sound, or where the one at fault is; places count from the data's
// first byte.
pub(crate) fn search<P: Payload>(
    payload: &P,
    first: usize,
    wanted: u16,
) -> Result<Option<Spot>, usize>
    requires { first ≤ length (P.bytes payload.now) }
    ensures { result ≡ searched (drop first (P.bytes payload.now)) wanted }
{
    let end = payload.len() - first;
    let mut met = None;
    let mut at: usize = 0;
    // no `for`: how far a parameter goes is known once it is read
    while at < end {
        let Some(param) = param_in(payload, first + at) else {
            return Err(at);
        };
        met = met_behind(met, wanted, param, at);
        at += param.total;
    }
    Ok(met)
}

// The first parameter of data with a code point: 17, 11.
pub(crate) fn find(data: &[u8], code_point: u16) -> Result<Spot, Refused>
    ensures { result ≡ found_as (searched «data».now code_point) }
{
    match search(&data, 0, code_point) {
        Ok(Some(spot)) => Ok(spot),
        Ok(None) => Err(Refusal::NotFound.at(0)),
        Err(place) => Err(Refusal::UnsoundData.at(place)),
    }
}
