// The listing of a strip that keeps every rule.
ghost use Rattle.rules.specs.Strip.{Valid};

use std::io;

// The place moves on by an instruction, which only `next_line` knows: no `for` counts it.
pub(crate) fn print(rt: &impl Print, strip: &[u8]) -> io::Result<()>
    requires { Valid strip.now }
{
    let mut kinds = [0u8; limits::STACK];
    let mut blocks = [0u32; limits::NEST];
    let mut text = [0u8; listing::LONGEST];
    let mut state = checker::outset();
    let mut at = checker::start(strip);
    while at < strip.len() {
        let n = listing::next_line(strip, at, &mut kinds, &mut blocks, state, &mut text);
        rt.write_all(&text[..n.len])?;
        state = n.state;
        at = n.at;
    }
    Ok(())
}
