// Fitting a tail, for C: 0 or a refusal number is answered, and the sum, or what goes with the refusal, is written to
// `carried`.
#![tactic(auto)]

ghost use Rattle.capi_tail.specs.Told.{FitTold};

// The Hill sum over the k largest peaks in `carried`, and the peaks sorted downwards from the start of `sorted`; or
// refusal 16, 17 with the first bad place, 7 with the places needed.
pub fn chim_tail_fit(peaks: &[u32], k: u64, sorted: &mut [u32], carried: &mut u64) -> u64
    ensures { FitTold peaks.now k sorted.old result carried.new sorted.new }
{
    let a = peak_tail::fit(peaks, k, sorted);
    match a {
        Ok(s) => capi::give(s, carried),
        Err(f) => capi::refuse(f, carried),
    }
}
