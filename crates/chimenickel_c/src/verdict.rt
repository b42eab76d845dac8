// The functions of `capi_verdict`, exported.

ghost use Rattle.std.specs.Prelude.{◌≡◌};
ghost use Rattle.poisson.specs.Rows.{LowerRow, UpperRow};
ghost use Rattle.capi_verdict.specs.Told.{campaign_censored, campaign_judged, campaign_rated, count, judgement};
ghost use Rattle.capi_verdict.specs.Told.{rates, ratings};

// The censored count N* in `carried`; or refusal 8.
#[unsafe(no_mangle)]
pub extern "C" fn chim_campaign_censored(state: &[u64], carried: &mut u64) -> u64
    ensures { count result carried.new ≡ campaign_censored state.now }
{
    capi_verdict::chim_campaign_censored(state, carried)
}

// The verdict in `carried`: 0 no record, 1 accept, 2 reject, 3 continue, with the rates that it carries and 0 for one
// that it does not; or refusal 8.
#[unsafe(no_mangle)]
pub extern "C" fn chim_campaign_verdict(
    state: &[u64],
    lower: &mut f64,
    upper: &mut f64,
    carried: &mut u64,
) -> u64
    ensures { judgement result carried.new lower.new upper.new
        ≡ campaign_judged state.now lower.old upper.old }
{
    capi_verdict::chim_campaign_verdict(state, lower, upper, carried)
}

// The three rates, and 1 in `carried`; 0 and rates of 0 while there is no record; or refusal 8.
#[unsafe(no_mangle)]
pub extern "C" fn chim_campaign_rates(
    state: &[u64],
    estimate: &mut f64,
    lower: &mut f64,
    upper: &mut f64,
    carried: &mut u64,
) -> u64
    ensures { ratings result carried.new
        (rates estimate.new lower.new upper.new)
        ≡ campaign_rated state.now (rates estimate.old lower.old upper.old) }
{
    capi_verdict::chim_campaign_rates(state, estimate, lower, upper, carried)
}

// Upper row n in millionths, from 1 to 64; 0 for any other n.
#[unsafe(no_mangle)]
pub extern "C" fn chim_upper_row(n: u64) -> u32
    ensures { UpperRow n result }
{
    capi_verdict::chim_upper_row(n)
}

// Lower row n in millionths, from 1 to 64; 0 for any other n.
#[unsafe(no_mangle)]
pub extern "C" fn chim_lower_row(n: u64) -> u32
    ensures { LowerRow n result }
{
    capi_verdict::chim_lower_row(n)
}
