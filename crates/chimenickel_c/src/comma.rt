// The functions of `capi_comma`, exported.

ghost use Rattle.std.specs.Prelude.{◌≡◌, []};
ghost use Rattle.capi.specs.Told.{told};
ghost use Rattle.capi_comma.specs.Told.{comma_read, comma_samples, comma_written};

// The samples of a text in `samples`, their number in `carried`; or refusal 1, 10 with the line number, 2 with the
// sample's place, 7 with the number of samples.
#[unsafe(no_mangle)]
pub extern "C" fn chim_comma_read(
    text: &[u8],
    step: u64,
    samples: &mut [i32],
    carried: &mut u64,
) -> u64
    ensures carried_after { told result carried.new [] ≡ comma_read step text.now samples.old }
    ensures samples_after { samples.new ≡ comma_samples step text.now samples.old }
{
    capi_comma::chim_comma_read(text, step, samples, carried)
}

// The text of samples in `out`, its bytes in `carried`; or refusal 1, 2 with the sample's place, 3 where the last
// time needs more than 12 digits, 7 with the bytes needed.
#[unsafe(no_mangle)]
pub extern "C" fn chim_comma_write(
    samples: &[i32],
    step: u64,
    out: &mut [u8],
    carried: &mut u64,
) -> u64
    ensures { told result carried.new out.new
        ≡ comma_written step samples.now out.old }
{
    capi_comma::chim_comma_write(samples, step, out, carried)
}
