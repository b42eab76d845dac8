// The functions of `capi_reach`, exported.

ghost use Rattle.std.specs.Prelude.{◌≡◌};
ghost use Rattle.capi.specs.Told.{told};
ghost use Rattle.capi_reach.specs.Told.{beyond_told};

// The three times of peaks that lie downwards in `times`, and the letter for the standard in `carried`: 1 accepted,
// 2 rejected, 3 continue. Refusals 8 for a `times` of another length, 1 (items 1, 3 and 5), 16, 17 with the first place
// at fault, 19, 20 with the k-th peak, 21.
#[unsafe(no_mangle)]
pub extern "C" fn chim_extrapolate(
    peaks: &[u32],
    k: u64,
    level: u64,
    step: u64,
    samples: u64,
    standard: u64,
    times: &mut [u64],
    carried: &mut u64,
) -> u64
    ensures { told result carried.new times.new
        ≡ beyond_told peaks.now k level step samples standard times.old }
{
    capi_reach::chim_extrapolate(peaks, k, level, step, samples, standard, times, carried)
}
