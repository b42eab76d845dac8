// The functions of `capi_peaks`, exported.

ghost use Rattle.std.specs.Prelude.{◌≡◌, ◌-◌};
ghost use Rattle.capi.specs.Told.{told};
ghost use Rattle.capi_peaks.specs.Told.{last_told};
ghost use Rattle.capi_peaks.specs.Told.{peaks_surveyed, peaks_taken, peaks_begun, peaks_handed, peak_sizes};
ghost use Rattle.capi_peaks.specs.Told.{peak_times, peak_last};

// The first pass over a record with that step and ramp, before its first sample, in `state`; or refusal 8 for an array
// of another length, 1 with item 1 or 2.
#[unsafe(no_mangle)]
pub extern "C" fn chim_peaks_survey(
    step: u64,
    ramp: u64,
    state: &mut [u64],
    carried: &mut u64,
) -> u64
    ensures { told result carried.new state.new
        ≡ peaks_surveyed step ramp state.old }
{
    capi_peaks::chim_peaks_survey(step, ramp, state, carried)
}

// The first pass in `state` with a piece of samples more; or refusal 8, 2 with the first place of the piece that is
// out of range, 3.
#[unsafe(no_mangle)]
pub extern "C" fn chim_peaks_take(state: &mut [u64], samples: &[i32], carried: &mut u64) -> u64
    ensures { told result carried.new state.new
        ≡ peaks_taken state.old samples.now }
{
    capi_peaks::chim_peaks_take(state, samples, carried)
}

// The second pass after the first in `survey`, before its first sample, in `state`; or refusal 8 for the array's
// length or for `survey`, 1 with item 4, 4 where the first pass took fewer than two samples after the ramp.
#[unsafe(no_mangle)]
pub extern "C" fn chim_peaks_begin(
    survey: &[u64],
    decorrelation: u64,
    state: &mut [u64],
    carried: &mut u64,
) -> u64
    ensures { told result carried.new state.new
        ≡ peaks_begun survey.now decorrelation state.old }
{
    capi_peaks::chim_peaks_begin(survey, decorrelation, state, carried)
}

// The second pass in `state` with a piece more: the peaks of the chains that it closed, from the start of `sizes` and
// `times`, and their number in `carried`; or refusal 8, 2 with the first place of the piece that is out of range, 3, 7
// with the places needed, one for each sample after the ramp.
#[unsafe(no_mangle)]
pub extern "C" fn chim_peaks_hand_over(
    state: &mut [u64],
    samples: &[i32],
    sizes: &mut [u32],
    times: &mut [u32],
    carried: &mut u64,
) -> u64
    ensures { (told result carried.new state.new
        ≡ peaks_handed state.old samples.now sizes.old times.old)
        × (sizes.new
        ≡ peak_sizes state.old samples.now sizes.old times.old)
        × (times.new
        ≡ peak_times state.old samples.now sizes.old times.old) }
{
    capi_peaks::chim_peaks_hand_over(state, samples, sizes, times, carried)
}

// The peak of the chain that is open where the samples end, in `size` and `time`, and 1 in `carried`; 0 in all three
// where there is none; or refusal 8. The pass stays as it is.
#[unsafe(no_mangle)]
pub extern "C" fn chim_peaks_last(
    state: &[u64],
    size: &mut u32,
    time: &mut u32,
    carried: &mut u64,
) -> u64
    ensures { last_told result carried.new size.new time.new
        ≡ peak_last state.now size.old time.old }
{
    capi_peaks::chim_peaks_last(state, size, time, carried)
}
