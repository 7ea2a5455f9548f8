// All objects of a run, or all parameters of an object's data: the work area and the row. Where none of a run's objects is
// refused, they are the parameters that it has as data.
ghost use Rattle.std.specs.Prelude.{◌≡◌, ◌≤◌, length, Ok};
ghost use Rattle.wire.specs.Bytes.{laid};
ghost use Rattle.ddm_object.specs.Objects.{objects, parameters};
ghost use Rattle.ddm_rows.specs.ListCalls.{ListsParameters, works_of, measured_objects};
ghost use Rattle.ddm_rows.specs.ObjectRows.{TakesWork};
ghost use Rattle.ddm_rows.specs.inner.RowsFilled.{RowFilled};

use super::ObjectsFound;
use answer::Refused;
use ddm_object::DdmObject;

// Lays into the work area what the parameters need of it, where it has room for that: only one of raw length 0x8004 needs any,
// and it takes all that is left.
pub(crate) fn take_works(data: &[u8], work: &mut [u8])
    ensures { work.new ≡ laid work.old 0 (works_of «data».now 0 (parameters «data».now)) }
{
    let mut at: usize = 0;
    while let Ok((o, next)) = ddm_object::step_at(data, at) {
        if o.in_work {
            // nothing is laid down where there is no room
            let _ = ddm_length::strip_extended_ddm_continuation_markers(&data[at + 4..], work);
            return;
        }
        at = next;
    }
}

// Tests the work area and the row once all is measured, and lays into the work area what it gets.
pub(crate) fn take_listed(
    data: &[u8],
    found: ObjectsFound,
    work: &mut [u8],
    rows: usize,
) -> Result<ObjectsFound, Refused>
    requires { Ok found ≡ measured_objects «data».now (objects (parameters «data».now)) }
    ensures { TakesWork «data».now (objects (parameters «data».now)) work.old rows result work.new }
{
    if work.len() < found.work || rows < found.count {
        return Err(Refused::no_room(found.work, found.count, 0));
    }
    if found.work > 0 {
        take_works(data, work);
    }
    Ok(found)
}

// The thin loop: the first n records of data into a row that has room for them.
pub(crate) fn fill_row(data: &[u8], n: usize, row: &mut [DdmObject])
    requires { n ≤ length row.old }
    ensures { RowFilled «data».now n row.old row.new }
{
    let mut at: usize = 0;
    for slot in row[..n].iter_mut() {
        let Ok((o, next)) = ddm_object::step_at(data, at) else {
            break;
        };
        *slot = o;
        at = next;
    }
}

// The list once all is measured: a work area and a row, all or nothing.
pub(crate) fn list(
    data: &[u8],
    found: ObjectsFound,
    work: &mut [u8],
    row: &mut [DdmObject],
) -> Result<ObjectsFound, Refused>
    requires { Ok found ≡ measured_objects «data».now (objects (parameters «data».now)) }
    ensures { ListsParameters «data».now work.old row.old result work.new row.new }
{
    take_listed(data, found, work, row.len())?;
    fill_row(data, found.count, row);
    Ok(found)
}
