// What a sum of records says by the binomial method (document 02, [7]): its bounds in thousandths of a failure, by
// the normal approximation, and its rates. A state that breaks a sum's relations is refused.
#![tactic(auto)]

ghost use Rattle.std.specs.Prelude.{◌≡◌, ◌-◌, ◌*◌, ◌≤◌};
ghost use Rattle.binomial_sum.specs.Kept.{Kept};
ghost use Rattle.campaign_verdict.specs.Figures.{quotient};
ghost use Rattle.binomial_bounds.specs.Answers.{bounding, rating};
ghost use Rattle.binomial_bounds.specs.Bounds.{bounds_of, three};

use binomial_sum::Sum;
use campaign_verdict::Rates;
use refusal::Refusal;

// Thousandths of a failure in `time` ms.
#[derive(Clone, Copy)]
pub struct Bounds {
    pub estimate: u64,
    pub lower: u64,
    pub upper: u64,
    pub time: u64,
}

// x - y, or 0 where that falls below.
fn less(x: u64, y: u64) -> u64
    ensures { result ≡ x - y }
{
    if y < x { x - y } else { 0 }
}

fn bounds_of(s: Sum) -> Bounds
    requires { Kept s }
    ensures { result ≡ bounds_of s }
{
    let estimate = 1_000 * s.failures;
    let width = root::half_width(1_960, s.failures, s.samples);
    Bounds {
        estimate: estimate,
        lower: less(estimate, width),
        upper: estimate + width,
        time: s.samples * s.step,
    }
}

// One rounded division of two whole numbers that f64 holds exactly. `campaign_verdict` has the same: neither is public,
// since a public function asks nothing of its callers.
fn quotient(n: u64, t: u64) -> f64
    requires { (n ≤ 9007199254740992) × (t ≤ 9007199254740992) }
    ensures { result ≡ quotient n t }
{
    (n as f64) / (t as f64)
}

// The three rates of a sum with a record.
fn three(s: Sum) -> Rates
    requires { Kept s }
    ensures { result ≡ three s }
{
    let b = bounds_of(s);
    Rates {
        estimate: quotient(b.estimate, b.time),
        lower: quotient(b.lower, b.time),
        upper: quotient(b.upper, b.time),
    }
}

// Whether there is a record, and the bounds: without one they are 0, and are written all the same.
pub type Bounded = Result<(bool, Bounds), Refusal>;

// The bounds and whether there is a record; or refusal 8.
pub fn bound(s: Sum) -> Bounded
    ensures { result ≡ bounding s }
{
    if !binomial_sum::sound(s) {
        return Err(Refusal::BrokenState);
    }
    Ok((s.samples != 0, bounds_of(s)))
}

// The rates and whether there is a record; or refusal 8.
pub fn rate(s: Sum) -> Result<Option<Rates>, Refusal>
    ensures { result ≡ rating s }
{
    if !binomial_sum::sound(s) {
        return Err(Refusal::BrokenState);
    }
    if s.samples == 0 {
        return Ok(None);
    }
    Ok(Some(three(s)))
}
