// Envelope peaks, for C: 0 or a refusal number is answered, and how many peaks were handed out, or what goes with the
// refusal, is written to `carried`.
#![tactic(auto)]

ghost use Rattle.std.specs.Prelude.{◌≡◌};
ghost use Rattle.capi.specs.Told.{told};
ghost use Rattle.capi_envelope.specs.Told.{envelope_found, envelope_times};

// The envelope peaks of a whole record: magnitudes from the start of `sizes`, times from the start of `times`, their
// number in `carried`; or refusal 1, 2, 3, 4, 7 with the places needed.
#[tactic(auto, unfolding(crate::specs::Told::found_told))]
pub fn chim_envelope_find(
    step: u64,
    ramp: u64,
    decorrelation: u64,
    samples: &[i32],
    sizes: &mut [u32],
    times: &mut [u32],
    carried: &mut u64,
) -> u64
    ensures { (told result carried.new sizes.new
        ≡ envelope_found step ramp decorrelation samples.now sizes.old times.old)
        × (times.new
        ≡ envelope_times step ramp decorrelation samples.now sizes.old times.old) }
{
    let a = peak_envelope::find(step, ramp, decorrelation, samples, sizes, times);
    match a {
        Ok(k) => capi::give(k, carried),
        Err(f) => capi::refuse(f, carried),
    }
}
