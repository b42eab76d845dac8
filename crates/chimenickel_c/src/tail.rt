// The functions of `capi_tail`, exported.

ghost use Rattle.capi_tail.specs.Told.{FitTold};

// The Hill sum over the k largest peaks in `carried`, and the peaks sorted downwards from the start of `sorted`; or
// refusal 16, 17 with the first bad place, 7 with the places needed.
#[unsafe(no_mangle)]
pub extern "C" fn chim_tail_fit(peaks: &[u32], k: u64, sorted: &mut [u32], carried: &mut u64) -> u64
    ensures { FitTold peaks.now k sorted.old result carried.new sorted.new }
{
    capi_tail::chim_tail_fit(peaks, k, sorted, carried)
}
