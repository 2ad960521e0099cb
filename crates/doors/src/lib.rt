// The doors for the firmware, which is C: include/gevurlat.h declares them.
#![tactic(auto)]

ghost use Rattle.std.specs.Prelude.{◌<◌, ◌^◌, ◌≡◌};
ghost use Rattle.std.proofs.Math.Option.{none, some};
ghost use Rattle.checker.specs.Check.{Checked};
ghost use Rattle.run.specs.Meter.{leaves};
ghost use Rattle.run.specs.Run.{Runs};
ghost use Rattle.run.specs.Resume.{Resumes};
ghost use Rattle.doors.specs.Packed.{code_of, place_of, steps_of, answer_of};

#[unsafe(no_mangle)]
pub extern "C" fn gevurlat_check(strip: &[u8]) -> u64
    ensures { Checked strip.now (answer_of result) }
{
    let verdict = checker::check(strip);
    pack(verdict.code, verdict.place, verdict.steps)
}

#[unsafe(no_mangle)]
pub extern "C" fn gevurlat_run(
    strip: &[u8],
    args: &[u8],
    memory: &mut [u8],
    results: &mut [u8],
    budget: u32,
) -> u64
    ensures { Runs strip.now args.now memory.old results.old none budget (leaves (code_of result) (place_of result) (steps_of result) memory.new results.new none) }
{
    let ran = run::run_once(strip, args, memory, results, budget);
    pack(ran.code, ran.place, ran.steps)
}

// A run that can be resumed.
#[unsafe(no_mangle)]
pub extern "C" fn gevurlat_start(
    strip: &[u8],
    args: &[u8],
    memory: &mut [u8],
    results: &mut [u8],
    image: &mut [u8],
    budget: u32,
) -> u64
    ensures { Runs strip.now args.now memory.old results.old (some image.old) budget (leaves (code_of result) (place_of result) (steps_of result) memory.new results.new (some image.new)) }
{
    let started = run::run(strip, args, memory, results, image, budget);
    pack(started.code, started.place, started.steps)
}

#[unsafe(no_mangle)]
pub extern "C" fn gevurlat_resume(
    strip: &[u8],
    memory: &mut [u8],
    results: &mut [u8],
    image: &mut [u8],
    budget: u32,
) -> u64
    ensures { Resumes strip.now memory.old results.old image.old budget (leaves (code_of result) (place_of result) (steps_of result) memory.new results.new (some image.new)) }
{
    let resumed = run::resume(strip, memory, results, image, budget);
    pack(resumed.code, resumed.place, resumed.steps)
}

// Code in bits 0-7, place in 8-31, steps in 32-63.
fn pack(code: u8, place: usize, steps: u32) -> u64
    requires { place < 2 ^ 24 }
    ensures { (code_of result ≡ code) × (place_of result ≡ place) × (steps_of result ≡ steps) }
{
    (code as u64) + 0x100 * (place as u64) + 0x1_0000_0000 * (steps as u64)
}
