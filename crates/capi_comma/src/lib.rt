// Comma files for C: a text read into samples, samples written as a text. Each function answers 0 or the refusal
// number and writes what goes with it to `carried`; a refusal leaves the lent memory as it stood.
#![tactic(auto)]

ghost use Rattle.std.specs.Prelude.{◌≡◌, []};
ghost use Rattle.capi.specs.Told.{told};
ghost use Rattle.capi_comma.specs.Told.{comma_read, comma_samples, comma_written};

// The samples of a text in `samples`, their number in `carried`; or refusal 1, 10 with the line number, 2 with the
// sample's place, 7 with the number of samples.
#[tactic(auto, unfolding(crate::specs::Told::read_told))]
pub fn chim_comma_read(text: &[u8], step: u64, samples: &mut [i32], carried: &mut u64) -> u64
    ensures carried_after { told result carried.new [] ≡ comma_read step text.now samples.old }
    ensures samples_after { samples.new ≡ comma_samples step text.now samples.old }
{
    match comma_read::read(text, step, samples) {
        Ok(n) => capi::give(n, carried),
        Err(f) => capi::refuse(f, carried),
    }
}

// The text of samples in `out`, its bytes in `carried`; or refusal 1, 2 with the sample's place, 3 where the last
// time needs more than 12 digits, 7 with the bytes needed.
#[tactic(auto, unfolding(capi::specs::Told::write_told))]
pub fn chim_comma_write(samples: &[i32], step: u64, out: &mut [u8], carried: &mut u64) -> u64
    ensures { told result carried.new out.new
        ≡ comma_written step samples.now out.old }
{
    capi::tell_writing(comma_write::write(samples, step, out), carried)
}
