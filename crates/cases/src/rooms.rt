// What a case lends: rooms, a byte longer than a strip and a memory may be, and memory as it is before a run. A room is made by a function, whose
// caller knows its length and no more: in the caller itself an array as long as that would be too much for the prover.
ghost use Rattle.std.specs.Prelude.{◌≡◌, ◌+◌, ◌%◌, IfOk, EachIndex, length, slice_index, vec_len};
ghost use Rattle.limits.specs.Limits.{file_limit, memory_limit};

use std::alloc::{AllocError, Global};

const STRIP: usize = limits::FILE + 1;

const MEMORY: usize = limits::MEMORY + 1;

pub fn strip_room() -> [u8; STRIP]
    ensures { file_limit + 1 ≡ length result }
{
    [0; STRIP]
}

pub fn memory_room() -> [u8; MEMORY]
    ensures { memory_limit + 1 ≡ length result }
{
    [0; MEMORY]
}

// What the memory holds before a run, at each address.
pub(crate) fn before(address: usize) -> u8
    ensures { result ≡ address % 256 }
{
    (address % 256) as u8
}

// A memory of so many bytes, as it is before a run.
pub fn memory(alloc: Global, len: usize) -> Result<Vec<u8>, AllocError>
    ensures len { IfOk result (λ bytes. vec_len bytes ≡ len) }
    ensures values { IfOk result (λ bytes. EachIndex bytes.items (λ k. slice_index bytes.items k ≡ k % 256)) }
{
    (0..len).map(before).collect(alloc)
}

// The same of a memory that is there.
pub fn fill(mem: &mut [u8])
    ensures { EachIndex mem.new (λ k. slice_index mem.new k ≡ k % 256) }
{
    for (address, byte) in mem.iter_mut().enumerate() {
        *byte = before(address);
    }
}
