// The functions of `capi_condition`, exported.

ghost use Rattle.std.specs.Prelude.{◌≡◌, []};
ghost use Rattle.capi.specs.Told.{told};
ghost use Rattle.capi_condition.specs.Told.{condition_judged, condition_reported};

// Where the condition stands, in `carried`: 1 accepted, 2 rejected, 3 open. Refusals 18, 8 with the lowest situation.
#[unsafe(no_mangle)]
pub extern "C" fn chim_condition_judge(campaigns: &[[u64; 5]], carried: &mut u64) -> u64
    ensures { told result carried.new [] ≡ condition_judged campaigns.now }
{
    capi_condition::chim_condition_judge(campaigns, carried)
}

// The report in `out`, its bytes in `carried`. Refusals 18, 8 with the lowest situation, 7 with the bytes needed.
#[unsafe(no_mangle)]
pub extern "C" fn chim_condition_report(
    campaigns: &[[u64; 5]],
    out: &mut [u8],
    carried: &mut u64,
) -> u64
    ensures { told result carried.new out.new
        ≡ condition_reported campaigns.now out.old }
{
    capi_condition::chim_condition_report(campaigns, out, carried)
}
