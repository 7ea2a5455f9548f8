// A walker, made at the first parameter, moved to a place and asked there.
ghost use Rattle.std.specs.Prelude.{◌≡◌};
ghost use Rattle.ddm_object.specs.ObjectCalls.{param_step_at};
ghost use Rattle.wire.specs.Parts.{RestAt};

use answer::Refused;
use ddm_object::DdmObject;
use ddm_rows::Walker;

pub(crate) fn step_from(data: &[u8], at: usize) -> Result<(DdmObject, usize), Refused>
    ensures { result ≡ param_step_at «data».now at }
{
    Walker::new(data).moved(at).step()
}

pub(crate) fn rest_from(data: &[u8], at: usize) -> &[u8]
    ensures { RestAt «data».entry at result }
{
    Walker::new(data).moved(at).rest()
}
