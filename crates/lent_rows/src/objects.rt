// A row of objects or parameters.
ghost use Rattle.std.specs.Prelude.{replicate};
ghost use Rattle.ddm_rows.specs.ListCalls.{ParsesObjects, ListsParameters};

use super::{Listed, lent};
use answer::Refused;
use ddm_object::DdmObject;
use ddm_rows::ObjectsFound;

pub type ObjectsRow = Listed<Result<ObjectsFound, Refused>, [DdmObject; 16]>;

pub const BLANK_OBJECT: DdmObject = DdmObject {
    code_point: 9,
    in_work: true,
    data_at: 99,
    data_len: 99,
    consumed: 99,
};

// All objects of a run, in a row of sixteen that are blank.
pub fn objects_row(bytes: &[u8], work: &mut [u8], blank: DdmObject) -> ObjectsRow
    ensures { ParsesObjects bytes.now work.old (replicate 16 blank) result.answer work.new result.row }
{
    lent(
        work,
        blank,
        |work, row| ddm_rows::parse_ddm_objects(bytes, work, row),
    )
}

// All parameters of an object's data, in a row of sixteen that are blank.
pub fn parameters_row(data: &[u8], work: &mut [u8], blank: DdmObject) -> ObjectsRow
    ensures { ListsParameters «data».now work.old (replicate 16 blank) result.answer work.new result.row }
{
    lent(
        work,
        blank,
        |work, row| ddm_rows::parameters(data, work, row),
    )
}
