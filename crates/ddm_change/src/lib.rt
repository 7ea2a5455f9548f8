// Changing one parameter of data, and of a request already built: document 02, W-204. Nothing is written before all is known: one
// walk finds the parameter and any fault, the room is tested, and then the parts are laid down.
#![tactic(auto)]

mod carried; // carried.rt: a payload where it lies, whole or cut into a frame's segments
mod laying; // laying.rt: the parts of a payload laid down as the writer cuts them
mod request; // request.rt: what is known of a request before it is laid down
mod search; // search.rt: the walk over the parameters

ghost use Rattle.std.specs.Prelude.{◌≡◌, ◌++◌, ◌+◌, ◌≤◌, length, take, drop};
ghost use Rattle.answer.specs.Rooms.{capped, Lays};
ghost use Rattle.ddm_builder.specs.Built.{built, built_size};
ghost use Rattle.ddm_change.specs.Change.{Changes, needed_of};
ghost use Rattle.ddm_change.specs.Request.{ChangesRequest};

use answer::Refused;
use carried::Carried;

// How a run carries a payload: its first byte's place, and how many continuations there are, each behind two bytes. With a place
// of 0 and no continuations the run is the payload.
#[derive(Clone, Copy)]
pub(crate) struct Carriage {
    pub lead: usize,
    pub continuations: usize,
}

// What one parameter is: its code point and all its bytes.
#[derive(Clone, Copy)]
pub(crate) struct Param {
    pub code_point: u16,
    pub total: usize,
}

// A parameter's bytes: from its first up to the one after its last.
#[derive(Clone, Copy)]
pub struct Spot {
    pub from: usize,
    pub to: usize,
}

// The one frame of a request: the byte after its last and its segments.
#[derive(Clone, Copy)]
pub(crate) struct Alone {
    pub end: usize,
    pub segments: usize,
}

// Where in a request's payload the parameter stands that is to be rewritten, and how long all is afterwards: the payload; its object's
// code point; where the object's data start, and the parameter from its first byte up to the one after its last; then the lengths of
// data and payload after, 2^64 - 1 where they are more.
#[derive(Clone, Copy)]
pub(crate) struct Plan<'a> {
    pub payload: Carried<'a>,
    pub code_point: u16,
    pub first: usize,
    pub from: usize,
    pub to: usize,
    pub data_len: usize,
    pub payload_len: usize,
}

// The bytes of data after a parameter was rewritten, of those that stay and of the new ones; 2^64 - 1 where they are more.
pub(crate) fn changed_len(kept: usize, new_len: usize) -> usize
    ensures { result ≡ capped (kept + built_size new_len) }
{
    kept.saturating_add(ddm_builder::built_size(new_len))
}

// The data with a parameter rewritten, at the room's start: 9.
pub(crate) fn rewrite(
    data: &[u8],
    spot: Spot,
    code_point: u16,
    new: &[u8],
    room: &mut [u8],
) -> Result<usize, Refused>
    requires { (spot.from ≤ spot.to) × (spot.to ≤ length «data».now) }
    ensures { Lays (take spot.from «data».now ++ (built code_point new.now ++ drop spot.to «data».now)) room.old result room.new }
{
    let Spot { from, to } = spot;
    let need = changed_len(from + (data.len() - to), new.len());
    if room.len() < need {
        return Err(Refused::no_room(need, 0, 0));
    }
    wire::lay_at(&data[..from], room, 0);
    // what it needs is within what was asked for
    let _ = ddm_builder::build_param(code_point, new, &mut room[from..]);
    let behind = from + ddm_builder::serialized_header_len(new.len()) + new.len();
    wire::lay_at(&data[to..], room, behind);
    Ok(need)
}

// The data with the first parameter of a code point rewritten, at the room's start: 17, 11, 9.
pub fn change_param(
    data: &[u8],
    code_point: u16,
    new: &[u8],
    room: &mut [u8],
) -> Result<usize, Refused>
    ensures { Changes «data».now code_point new.now room.old result room.new }
{
    let spot = search::find(data, code_point)?;
    rewrite(data, spot, code_point, new, room)
}

// How many bytes that takes, with so many new ones: 17, 11. Above 2^64 - 1 it is given as that.
pub fn change_param_len(data: &[u8], code_point: u16, new_len: usize) -> Result<usize, Refused>
    ensures { result ≡ needed_of «data».now code_point new_len }
{
    let Spot { from, to } = search::find(data, code_point)?;
    Ok(changed_len(from + (data.len() - to), new_len))
}

// A request's frame with the first parameter of a code point rewritten, at the room's start; format byte and correlation stay: 1, 2, 3,
// 7, 17, 4, 5, 6, 8, 17, 11, 18, 9.
pub fn change_request(
    frame: &[u8],
    code_point: u16,
    new: &[u8],
    room: &mut [u8],
) -> Result<usize, Refused>
    ensures { ChangesRequest frame.now code_point new.now room.old result room.new }
{
    let plan = request::plan(frame, code_point, new)?;
    let need = dss_writer::frame_size(plan.payload_len);
    if room.len() < need {
        return Err(Refused::no_room(need, 0, 0));
    }
    request::lay(&plan, code_point, new, room);
    Ok(need)
}
