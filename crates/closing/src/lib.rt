// The `end` that closes a block, found from the bytes. They were checked, so the search goes over an instruction and asks nothing of it but where the
// next one stands.
#![tactic(auto)]

mod passing;

ghost use Rattle.std.specs.Prelude.{◌≡◌, ◌||◌, eqb};
ghost use Rattle.closing.specs.Search.{end_of};

// The place after the `end` of the block whose body begins at `start`, 0 where there is none: inside it the search recurses into blocks, with nesting
// room that falls. A number and no Option: the run keeps it in its table of ends, in fixed memory, and a strip that passes has every `end`.
// The loop stays a `while`: `at` leaps by an instruction or a block, and is no index over a collection.
pub fn close(s: &[u8], start: usize, room: usize) -> usize
    ensures { result ≡ end_of s.now room start }
{
    let mut at = start;
    while at < s.len() {
        let i = passing::pass(s, at);
        if i.group == opcode::GROUP_END {
            return i.next;
        }
        if opens(i.group) {
            if room == 0 {
                return 0;
            }
            let m = close(s, i.next, room - 1);
            if m <= i.next {
                return 0;
            }
            at = m;
        } else {
            at = i.next;
        }
    }
    0
}

fn opens(group: u8) -> bool
    ensures { result ≡ (eqb group 25 || eqb group 26) }
{
    matches!(group, opcode::GROUP_BLOCK | opcode::GROUP_LOOP)
}
