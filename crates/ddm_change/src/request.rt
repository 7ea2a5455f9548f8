// What is known of a request before it is laid down: that it is one frame with one object, where in it the parameter stands, and how
// long the frame after is; then the laying down.
ghost use Rattle.std.specs.Prelude.{◌≡◌, ◌+◌, ◌≤◌, ◌<◌, ◌^◌, length};
ghost use Rattle.wire.specs.Bytes.{splice};
ghost use Rattle.dss_frame.specs.declared.Rules.TheVariants.{Reader as asReader};
ghost use Rattle.dss_frame.specs.Written.{frame_size};
ghost use Rattle.ddm_change.specs.Alone.{alone_at};
ghost use Rattle.ddm_change.specs.Request.{reframed, unreadable};
ghost use Rattle.ddm_change.specs.inner.Planning.{alone_of, Standing, OneObject, FoundParam, Plans, LayingRequest, payload_after};

use super::carried::Carried;
use super::laying::Laying;
use super::{Alone, Carriage, Plan, Spot, changed_len, laying, search};
use answer::{Refusal, Refused};
use ddm_length::{Marshaled, Payload};
use dss_frame::Rules;
use dss_head::{DSS_CONTINUATION_PAYLOAD_LEN, DSS_FIRST_PAYLOAD_LEN, DSS_HEADER_LEN};
use dss_measure::Walked;

// The one frame of a request, nothing absorbed: 1 or 16, 2, 3, 7.
pub(crate) fn alone(frame: &[u8]) -> Result<Alone, Refused>
    ensures { result ≡ alone_of (alone_at asReader frame.now 0) }
{
    let Walked { end, segments, .. } = dss_measure::walk_frame(Rules::Reader, frame, 0)?;
    dss_measure::head_at(frame, 0)?;
    let raw = wire::u16_at(frame, 0);
    if usize::from(raw) < DSS_HEADER_LEN {
        return Err(Refusal::LengthTooShort(raw).at(0));
    }
    Ok(Alone { end, segments })
}

// Whether the reader would say of a frame with so much payload that it isn't whole.
pub(crate) fn is_unreadable(payload_len: usize) -> bool
    ensures { result ≡ unreadable payload_len }
{
    DSS_FIRST_PAYLOAD_LEN < payload_len
        && (payload_len - DSS_FIRST_PAYLOAD_LEN) % DSS_CONTINUATION_PAYLOAD_LEN == 0
}

// The lengths after, of a parameter that is found in an object's data, which start at a payload byte: 18.
pub(crate) fn plan_found<'a>(
    payload: Carried<'a>,
    first: usize,
    spot: Spot,
    code_point: u16,
    new: &[u8],
) -> Result<Plan<'a>, Refused>
    requires { FoundParam payload.run.now payload.by first (first + spot.from) (first + spot.to) code_point }
    ensures { Plans payload.entry.run.now code_point (length new.now) result }
{
    let from = first + spot.from;
    let to = first + spot.to;
    let data_len = changed_len(spot.from + (payload.len() - to), new.len());
    let payload_len = ddm_builder::built_size(data_len);
    if is_unreadable(payload_len) {
        return Err(Refusal::UnreadableSize.at(0));
    }
    Ok(Plan {
        payload,
        code_point: ddm_length::u16_in(&payload, 2),
        first,
        from,
        to,
        data_len,
        payload_len,
    })
}

// The parameter in a request's one object, whose data start at a payload byte: 17, 11, 18.
pub(crate) fn plan_change<'a>(
    payload: Carried<'a>,
    first: usize,
    code_point: u16,
    new: &[u8],
) -> Result<Plan<'a>, Refused>
    requires { OneObject payload.run.now payload.by first }
    ensures { Plans payload.entry.run.now code_point (length new.now) result }
{
    match search::search(&payload, first, code_point) {
        Ok(Some(spot)) => plan_found(payload, first, spot, code_point, new),
        Ok(None) => Err(Refusal::NotFound.at(0)),
        Err(at) => Err(Refusal::UnsoundData.at(payload.place_of(first + at))),
    }
}

// The one object of a request's frame: 17 for what is left over, 4, 5, 6, 8, and what follows.
pub(crate) fn plan_object<'a>(
    frame: &'a [u8],
    alone: Alone,
    code_point: u16,
    new: &[u8],
) -> Result<Plan<'a>, Refused>
    requires { Standing frame.now alone.end alone.segments }
    ensures { Plans frame.now code_point (length new.now) result }
{
    let Alone { end, segments } = alone;
    let by = Carriage {
        lead: DSS_HEADER_LEN,
        continuations: segments - 1,
    };
    let payload = Carried {
        run: &frame[..end],
        by,
    };
    let behind = end < frame.len();
    match ddm_length::measure_in(&payload, 0, DSS_HEADER_LEN) {
        Ok(Marshaled { total, header }) => {
            if total < payload.len() {
                return Err(Refusal::UnsoundData.at(payload.place_of(total)));
            }
            if behind {
                return Err(Refusal::UnsoundData.at(end));
            }
            if ddm_length::u16_in(&payload, 0) == 0x8004 {
                return Err(Refusal::UnsoundData.at(DSS_HEADER_LEN));
            }
            plan_change(payload, header, code_point, new)
        }
        Err(_) if behind => Err(Refusal::UnsoundData.at(end)),
        Err(refused) => Err(refused),
    }
}

// All that is known of a request before room is tested.
pub(crate) fn plan<'a>(frame: &'a [u8], code_point: u16, new: &[u8]) -> Result<Plan<'a>, Refused>
    ensures { Plans frame.now code_point (length new.now) result }
{
    let alone = alone(frame)?;
    plan_object(frame, alone, code_point, new)
}

// The frame after, at the room's start: its head, whose length alone is new; the object's header; its data up to the parameter, the
// parameter, and its data behind it.
pub(crate) fn lay(plan: &Plan, code_point: u16, new: &[u8], room: &mut [u8])
    requires planned { LayingRequest plan.now.payload.run.now code_point (length new.now) plan.now }
    requires fits { frame_size plan.now.payload_len ≤ length room.old }
    ensures { room.new ≡ splice room.old 0 (reframed plan.now.payload.run.now (payload_after plan.now code_point new.now)) }
{
    let payload = &plan.payload;
    laying::lay_head(payload.run, plan.payload_len, room);
    let mut laying = Laying {
        room,
        len: plan.payload_len,
        at: 0,
    };
    laying.header(plan.code_point, plan.data_len);
    laying.part(payload, plan.first, plan.from);
    laying.header(code_point, new.len());
    laying.part(&Carried::plain(new), 0, new.len());
    laying.part(payload, plan.to, payload.len());
}
