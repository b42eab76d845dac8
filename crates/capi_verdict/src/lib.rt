// What a campaign says, for C: the censored count, the verdict, the rates, and the rows that they are made of. No
// array is written. A function that may refuse answers 0 or document 01's refusal number and writes what goes with it
// to `carried`; a refusal leaves every lent rate as it stood.
#![tactic(auto)]

ghost use Rattle.std.specs.Prelude.{◌≡◌};
ghost use Rattle.poisson.specs.Rows.{LowerRow, UpperRow};
ghost use Rattle.capi_verdict.specs.Told.{campaign_censored, campaign_judged, campaign_rated, count, judgement, told_rates};
ghost use Rattle.capi_verdict.specs.Told.{rates, ratings, verdict_told};

use campaign_verdict::{Rates, Verdict};

// The censored count N* in `carried`; or refusal 8.
#[tactic(auto, unfolding(crate::specs::Told::count_told))]
pub fn chim_campaign_censored(state: &[u64], carried: &mut u64) -> u64
    ensures { count result carried.new ≡ campaign_censored state.now }
{
    let a = campaign_verdict::censored(capi::campaign_of(state));
    match a {
        Ok(n) => capi::give(n, carried),
        Err(f) => capi::refuse(f, carried),
    }
}

// The two rates of a verdict, 0 where it carries none, and its case in `carried`.
#[tactic(auto, unfolding(crate::specs::Told::verdict_told))]
pub fn tell(v: Verdict, lower: &mut f64, upper: &mut f64, carried: &mut u64) -> u64
    ensures { judgement result carried.new lower.new upper.new ≡ verdict_told v }
{
    match v {
        Verdict::NoRecord => {
            *lower = 0.0;
            *upper = 0.0;
            capi::give(0, carried)
        }
        Verdict::Accept(y) => {
            *lower = 0.0;
            *upper = y;
            capi::give(1, carried)
        }
        Verdict::Reject(x) => {
            *lower = x;
            *upper = 0.0;
            capi::give(2, carried)
        }
        Verdict::Continue(x, y) => {
            *lower = x;
            *upper = y;
            capi::give(3, carried)
        }
    }
}

// The verdict in `carried`: 0 no record, 1 accept, 2 reject, 3 continue, with the rates that it carries and 0 for one
// that it does not; or refusal 8.
pub fn chim_campaign_verdict(
    state: &[u64],
    lower: &mut f64,
    upper: &mut f64,
    carried: &mut u64,
) -> u64
    ensures { judgement result carried.new lower.new upper.new
        ≡ campaign_judged state.now lower.old upper.old }
{
    let a = campaign_verdict::judge(capi::campaign_of(state));
    match a {
        Ok(v) => tell(v, lower, upper, carried),
        Err(f) => capi::refuse(f, carried),
    }
}

// What rates tell: themselves, and 1 in `carried`; without a record 0 each.
#[tactic(auto, unfolding(crate::specs::Told::told_rates))]
pub fn tell_rates(
    given: Option<Rates>,
    estimate: &mut f64,
    lower: &mut f64,
    upper: &mut f64,
    carried: &mut u64,
) -> u64
    ensures { ratings result carried.new (rates estimate.new lower.new upper.new) ≡ told_rates given }
{
    match given {
        Some(r) => {
            *estimate = r.estimate;
            *lower = r.lower;
            *upper = r.upper;
            capi::give(1, carried)
        }
        None => {
            *estimate = 0.0;
            *lower = 0.0;
            *upper = 0.0;
            capi::give(0, carried)
        }
    }
}

// The three rates, and 1 in `carried`; 0 and rates of 0 while there is no record; or refusal 8.
#[tactic(auto, unfolding(crate::specs::Told::rated_told))]
pub fn chim_campaign_rates(
    state: &[u64],
    estimate: &mut f64,
    lower: &mut f64,
    upper: &mut f64,
    carried: &mut u64,
) -> u64
    ensures { ratings result carried.new
        (rates estimate.new lower.new upper.new)
        ≡ campaign_rated state.now (rates estimate.old lower.old upper.old) }
{
    let a = campaign_verdict::rate(capi::campaign_of(state));
    match a {
        Ok(r) => tell_rates(r, estimate, lower, upper, carried),
        Err(f) => capi::refuse(f, carried),
    }
}

// Upper row n in millionths, from 1 to 64; 0 for any other n.
pub fn chim_upper_row(n: u64) -> u32
    ensures { UpperRow n result }
{
    poisson::upper_row(n)
}

// Lower row n in millionths, from 1 to 64; 0 for any other n.
pub fn chim_lower_row(n: u64) -> u32
    ensures { LowerRow n result }
{
    poisson::lower_row(n)
}
