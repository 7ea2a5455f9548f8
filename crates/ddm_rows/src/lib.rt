// All objects of a run, or all parameters of an object's data, into a lent row of records; and the walk over parameters: document
// 01, "DDM".
#![tactic(auto)]

mod rows; // rows.rt: the work area and the row of a list

ghost use Rattle.std.specs.Prelude.{◌≡◌, length, Ok};
ghost use Rattle.wire.specs.Parts.{RestAt};
ghost use Rattle.ddm_object.specs.Objects.{objects, all_objects, parameters};
ghost use Rattle.ddm_object.specs.ObjectCalls.{param_step_at};
ghost use Rattle.ddm_rows.specs.ListCalls.{ParsesObjects, ListsParameters, measured_objects};
ghost use Rattle.ddm_rows.specs.inner.WalkedList.{work_len, WalkedParams};
ghost use Rattle.ddm_rows.specs.ObjectRows.{TakesWork};

use answer::Refused;
use ddm_object::DdmObject;

// What listing all objects, or all parameters, comes to: how many records stand in the row, and how many bytes of the work
// area are filled.
#[derive(Clone, Copy)]
pub struct ObjectsFound {
    pub count: usize,
    pub work: usize,
}

// What the walk over all objects, or all parameters, comes to: how many there are, how much of the work area they need, and
// where it stops.
#[derive(Drop)]
pub(crate) struct Extent {
    pub found: ObjectsFound,
    pub end: usize,
}

// How much of the work area a record needs.
pub(crate) fn work_len(o: DdmObject) -> usize
    ensures { result ≡ work_len o }
{
    if o.in_work { o.data_len } else { 0 }
}

// Walks from object to object by measuring alone, up to the first that is refused.
pub(crate) fn walk(data: &[u8]) -> Extent
    ensures { WalkedParams «data».now result }
{
    let mut count: usize = 0;
    let mut work: usize = 0;
    let mut at: usize = 0;
    while let Ok((o, next)) = ddm_object::step_at(data, at) {
        count += 1;
        work += work_len(o);
        at = next;
    }
    Extent {
        found: ObjectsFound { count, work },
        end: at,
    }
}

// How many parameters there are, and how much of the work area they need.
pub fn measure_parameters(data: &[u8]) -> ObjectsFound
    ensures { Ok result ≡ measured_objects «data».now (objects (parameters «data».now)) }
{
    walk(data).found
}

// The same of all objects of a run, or the refusal of one of them.
pub fn measure_objects(run: &[u8]) -> Result<ObjectsFound, Refused>
    ensures { result ≡ measured_objects run.now (all_objects run.now) }
{
    let Extent { found, end } = walk(run);
    if run.len() - end >= 4 {
        ddm_length::measure_at(&run[end..], end)?;
    }
    Ok(found)
}

// All but the row, of all objects of a run: measures, tests work area and row, lays into the work area, and answers.
pub fn take_objects(run: &[u8], work: &mut [u8], rows: usize) -> Result<ObjectsFound, Refused>
    ensures { TakesWork run.now (all_objects run.now) work.old rows result work.new }
{
    let found = measure_objects(run)?;
    rows::take_listed(run, found, work, rows)
}

// The same of all parameters of an object's data.
pub fn take_parameters(data: &[u8], work: &mut [u8], rows: usize) -> Result<ObjectsFound, Refused>
    ensures { TakesWork «data».now (objects (parameters «data».now)) work.old rows result work.new }
{
    rows::take_listed(data, measure_parameters(data), work, rows)
}

// All objects of a run, one record each; it ignores 1 to 3 last bytes, and is refused whole on any refusal.
pub fn parse_ddm_objects(
    bytes: &[u8],
    work: &mut [u8],
    row: &mut [DdmObject],
) -> Result<ObjectsFound, Refused>
    ensures { ParsesObjects bytes.now work.old row.old result work.new row.new }
{
    let found = measure_objects(bytes)?;
    rows::list(bytes, found, work, row)
}

// All parameters of an object's data, one record each; anything unfit ends the list silently.
pub fn parameters(
    data: &[u8],
    work: &mut [u8],
    row: &mut [DdmObject],
) -> Result<ObjectsFound, Refused>
    ensures { ListsParameters «data».now work.old row.old result work.new row.new }
{
    rows::list(data, measure_parameters(data), work, row)
}

// All that stands from a place on; beyond the data it is the empty part at its end.
pub fn rest_at(data: &[u8], at: usize) -> &[u8]
    ensures { RestAt «data».entry at result }
{
    &data[at.min(data.len())..]
}

// A parameter walker remembers the data and its place.
#[derive(Drop)]
pub struct Walker<'a> {
    pub data: &'a [u8],
    pub at: usize,
}

impl<'a> Walker<'a> {
    // At the first parameter.
    pub fn new(data: &'a [u8]) -> Walker<'a>
        ensures { (result.«data» ≡ «data».entry) × (result.at ≡ 0) }
    {
        Walker { data, at: 0 }
    }

    // The parameter at its place and the next place, or a refusal.
    pub fn step(self) -> Result<(DdmObject, usize), Refused>
        ensures { result ≡ param_step_at self.entry.«data».now self.entry.at }
    {
        ddm_object::step_at(self.data, self.at)
    }

    // The same data, at another place.
    pub fn moved(self, at: usize) -> Walker<'a>
        ensures { (result.«data» ≡ self.entry.«data») × (result.at ≡ at) }
    {
        Walker { at, ..self }
    }

    // What is left of the data.
    pub fn rest(self) -> &'a [u8]
        ensures { RestAt self.entry.«data» self.entry.at result }
    {
        rest_at(self.data, self.at)
    }
}
