// Ones in eight lanes at a time, for i8x16.popcnt. Plain x86-64 has no instruction for it: a count of ones is made of shifts, masks and sums, and
// those that count in one byte count in all eight.
ghost use Rattle.std.specs.Prelude.{◌≡◌};
ghost use Rattle.std.specs.Int.Count.{ones};
ghost use Rattle.lane.specs.Inner.Words.{fieldwise};

// In each byte the ones of every two bits, of every four, and of all eight.
pub(crate) fn ones_of_bytes(x: u64) -> u64
    ensures { result ≡ fieldwise 8 8 ones x }
{
    let twos = x - ((x >> 1) & 0x5555_5555_5555_5555);
    let fours = (twos & 0x3333_3333_3333_3333) + ((twos >> 2) & 0x3333_3333_3333_3333);
    (fours + (fours >> 4)) & 0x0F0F_0F0F_0F0F_0F0F
}
