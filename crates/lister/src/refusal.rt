// What is printed of a strip that is turned away: one line, with code and place.
ghost use Rattle.std.specs.Prelude.{◌≤◌, IfSome, length};
ghost use Rattle.text.specs.Append.{Appends};
ghost use Rattle.lister.specs.Refusal.{told, PrintsRefusal};

// Two numbers of at most twenty digits and a byte after each.
pub(crate) const LONGEST: usize = 42;

// The line's length; none, and nothing written, of a strip that keeps every rule.
pub(crate) fn refusal(strip: &[u8], out: &mut [u8]) -> Option<usize>
    requires { 42 ≤ length out.old }
    ensures upper_bound { IfSome result (λ len. len ≤ 42) }
    ensures prints_refusal { PrintsRefusal strip.now out.old result out.new }
{
    let a = checker::check(strip);
    if a.code == card::DONE {
        return None;
    }
    Some(line(a.code, a.place, out))
}

fn line(code: u8, place: usize, out: &mut [u8]) -> usize
    requires { 42 ≤ length out.old }
    ensures upper_bound { (result ≤ 42) × (length (told code place) ≤ 42) }
    ensures appends { Appends (told code place) out.old 0 result out.new }
{
    let after_code = text::decimal(code as u64, out, 0);
    let before_place = text::push(b' ', out, after_code);
    let after_place = text::decimal(place as u64, out, before_place);
    text::push(b'\n', out, after_place)
}
