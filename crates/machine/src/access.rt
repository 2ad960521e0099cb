// The bounds of the memory. Every access is asked here before it is made.
ghost use Rattle.std.specs.Prelude.{◌≡◌, ◌<◌, ◌≤◌, ◌^◌};
ghost use Rattle.machine.specs.Answer.{told_bounds};
ghost use Rattle.machine.specs.Inner.Fit.{bounds_at};

// An access that is not within the memory: its first address at or past the memory's end.
#[derive(Clone, Copy)]
pub struct PastEnd {
    pub address: u64,
}

// Address and offset are added without wrapping.
pub(crate) fn bounds_at(at: usize, n: usize, len: usize) -> Result<(), PastEnd>
    requires { (at < 2 ^ 33) × (n ≤ 16) }
    ensures { told_bounds result ≡ bounds_at at n len }
{
    if at + n <= len {
        return Ok(());
    }
    Err(PastEnd {
        address: at.max(len) as u64,
    })
}
