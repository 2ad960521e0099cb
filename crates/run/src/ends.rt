// The `end` of a block is looked for at the first branch out of it, and kept for the next one: a word for the place where a body begins and the place
// after its `end`. A body has one word where it can stand, which another body may take from it.
ghost use Rattle.std.specs.Prelude.{◌≡◌, get_or};
ghost use Rattle.std.proofs.Math.Option.{some};
ghost use Rattle.standard.specs.Closing.{close};
ghost use Rattle.run.specs.Inner.Ends.{Closable, Kept};

// The place after the `end` of the block whose body begins at `body`.
pub(crate) fn end_of(strip: &[u8], body: usize, room: usize, ends: &mut [u32]) -> usize
    requires { Closable strip.now body room × Kept strip.now ends.old }
    ensures { (close (get_or strip.now 3 0) strip.now body ≡ some result) × Kept strip.now ends.new }
{
    let k = body % crate::ENDS;
    let word = ends[k] as usize;
    if word / limits::FILE == body {
        return word % limits::FILE;
    }
    let next = closing::close(strip, body, room);
    ends[k] = (limits::FILE * body + next) as u32;
    next
}
