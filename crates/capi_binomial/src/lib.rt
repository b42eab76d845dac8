// A sum of records for C, by the binomial method: a state of three numbers, D, N and P. Each function answers 0 or
// the refusal number and writes what goes with it to `carried`; a refusal leaves everything else that was lent as it
// stood. Any numbers are an answer, 8 where they are no sum or no record.
#![tactic(auto)]

ghost use Rattle.std.specs.Prelude.{◌≡◌};
ghost use Rattle.capi.specs.Told.{told};
ghost use Rattle.capi_verdict.specs.Told.{rates, ratings};
ghost use Rattle.capi_binomial.specs.Told.{no_sum, of_bounds, of_sum, sum_added, sum_bounded, sum_kept, sum_of};
ghost use Rattle.capi_binomial.specs.Told.{sum_opened, sum_rated};

use binomial_bounds::Bounds;
use binomial_sum::Sum;
use refusal::Refusal;

const SUM_NUMBERS: usize = 3;

const BOUNDS_NUMBERS: usize = 4;

// A state that no sum has.
fn no_sum() -> Sum
    ensures { result ≡ no_sum }
{
    Sum {
        step: 0,
        failures: 0,
        samples: 0,
    }
}

// The sum that an array holds.
#[tactic(auto, unfolding(crate::specs::Told::sum_of))]
fn sum_of(state: &[u64]) -> Sum
    ensures { result ≡ sum_of state.now }
{
    if state.len() != SUM_NUMBERS {
        return no_sum();
    }
    Sum {
        step: state[0],
        failures: state[1],
        samples: state[2],
    }
}

fn of_sum(s: Sum) -> [u64; 3]
    ensures { result ≡ of_sum s }
{
    [s.step, s.failures, s.samples]
}

fn of_bounds(b: Bounds) -> [u64; 4]
    ensures { result ≡ of_bounds b }
{
    [b.estimate, b.lower, b.upper, b.time]
}

// The sum of an answer in `state`; or refusal 8 for an array of another length, else the answer's.
#[tactic(auto, unfolding(crate::specs::Told::sum_kept, crate::specs::Told::sum_told))]
fn keep_sum(a: Result<Sum, Refusal>, state: &mut [u64], carried: &mut u64) -> u64
    ensures { told result carried.new state.new ≡ sum_kept a state.old }
{
    match a {
        Ok(s) => {
            let numbers = of_sum(s);
            capi::keep(&numbers, state, carried)
        }
        Err(f) => capi::refuse(capi::for_places(f, SUM_NUMBERS, state.len()), carried),
    }
}

// The sum of no records in `state`; or refusal 8 for an array of another length, 1 with item 1.
pub fn chim_sum_open(step: u64, state: &mut [u64], carried: &mut u64) -> u64
    ensures { told result carried.new state.new ≡ sum_opened step state.old }
{
    keep_sum(binomial_sum::open(step), state, carried)
}

// The sum in `state` with a record added; or refusal 8, 4, 1 with item 1 for a record of another step, 11.
pub fn chim_sum_add(state: &mut [u64], added: &[u64], carried: &mut u64) -> u64
    ensures { told result carried.new state.new
        ≡ sum_added state.old added.now }
{
    let s = sum_of(state);
    let r = capi::record_of(added);
    keep_sum(s.add(r), state, carried)
}

// The bounds in thousandths of a failure and P·D in `bounds`, and 1 in `carried`; 0 and bounds of 0 while there is no
// record; or refusal 8.
#[tactic(auto, unfolding(crate::specs::Told::sum_bounded, crate::specs::Told::bounds_told))]
pub fn chim_sum_bounds(state: &[u64], bounds: &mut [u64], carried: &mut u64) -> u64
    ensures { told result carried.new bounds.new
        ≡ sum_bounded state.now bounds.old }
{
    if bounds.len() != BOUNDS_NUMBERS {
        return capi::refuse(Refusal::BrokenState, carried);
    }
    let a = binomial_bounds::bound(sum_of(state));
    match a {
        Ok((b, x)) => {
            let numbers = of_bounds(x);
            capi::put(&numbers, bounds);
            capi::give(capi::flag(b), carried)
        }
        Err(f) => capi::refuse(f, carried),
    }
}

// The three rates, and 1 in `carried`; 0 and rates of 0 while there is no record; or refusal 8.
#[tactic(auto, unfolding(capi_verdict::specs::Told::rated_told))]
pub fn chim_sum_rates(
    state: &[u64],
    estimate: &mut f64,
    lower: &mut f64,
    upper: &mut f64,
    carried: &mut u64,
) -> u64
    ensures { ratings result carried.new
        (rates estimate.new lower.new upper.new)
        ≡ sum_rated state.now (rates estimate.old lower.old upper.old) }
{
    let a = binomial_bounds::rate(sum_of(state));
    match a {
        Ok(r) => capi_verdict::tell_rates(r, estimate, lower, upper, carried),
        Err(f) => capi::refuse(f, carried),
    }
}
