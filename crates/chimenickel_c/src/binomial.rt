// The functions of `capi_binomial`, exported.

ghost use Rattle.std.specs.Prelude.{◌≡◌};
ghost use Rattle.capi.specs.Told.{told};
ghost use Rattle.capi_verdict.specs.Told.{rates, ratings};
ghost use Rattle.capi_binomial.specs.Told.{sum_added, sum_bounded};
ghost use Rattle.capi_binomial.specs.Told.{sum_opened, sum_rated};

// The sum of no records in `state`; or refusal 8 for an array of another length, 1 with item 1.
#[unsafe(no_mangle)]
pub extern "C" fn chim_sum_open(step: u64, state: &mut [u64], carried: &mut u64) -> u64
    ensures { told result carried.new state.new ≡ sum_opened step state.old }
{
    capi_binomial::chim_sum_open(step, state, carried)
}

// The sum in `state` with a record added; or refusal 8, 4, 1 with item 1 for a record of another step, 11.
#[unsafe(no_mangle)]
pub extern "C" fn chim_sum_add(state: &mut [u64], added: &[u64], carried: &mut u64) -> u64
    ensures { told result carried.new state.new
        ≡ sum_added state.old added.now }
{
    capi_binomial::chim_sum_add(state, added, carried)
}

// The bounds in thousandths of a failure and P·D in `bounds`, and 1 in `carried`; 0 and bounds of 0 while there is no
// record; or refusal 8.
#[unsafe(no_mangle)]
pub extern "C" fn chim_sum_bounds(state: &[u64], bounds: &mut [u64], carried: &mut u64) -> u64
    ensures { told result carried.new bounds.new
        ≡ sum_bounded state.now bounds.old }
{
    capi_binomial::chim_sum_bounds(state, bounds, carried)
}

// The three rates, and 1 in `carried`; 0 and rates of 0 while there is no record; or refusal 8.
#[unsafe(no_mangle)]
pub extern "C" fn chim_sum_rates(
    state: &[u64],
    estimate: &mut f64,
    lower: &mut f64,
    upper: &mut f64,
    carried: &mut u64,
) -> u64
    ensures { ratings result carried.new
        (rates estimate.new lower.new upper.new)
        ≡ sum_rated state.now (rates estimate.old lower.old upper.old) }
{
    capi_binomial::chim_sum_rates(state, estimate, lower, upper, carried)
}
