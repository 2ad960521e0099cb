// The arguments as the machine's first locals.
ghost use Rattle.std.specs.Prelude.{◌≡◌, ◌≤◌, length, replicate};
ghost use Rattle.limits.specs.Limits.{local_bytes};
ghost use Rattle.machine.specs.Memory.{stored};

use crate::Locals;

// The parameters' values, and zero for every further local.
pub(crate) fn locals_of(args: &[u8], count: usize) -> Locals
    requires { length args.now ≤ local_bytes }
    ensures { (result.bytes ≡ stored (replicate local_bytes 0) 0 args.now) × (result.count ≡ count) }
{
    let mut bytes = [0u8; limits::LOCAL_BYTES];
    buffer::copy(args, &mut bytes);
    Locals { bytes, count }
}
