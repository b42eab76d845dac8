// What a campaign says: its censored count, its verdict and its rates (document 01, "The campaign"), by the rows of
// the quantile table. A state that breaks the campaign's relations is refused.
#![tactic(auto)]

ghost use Rattle.std.specs.Prelude.{◌≡◌, ◌*◌, ◌≤◌};
ghost use Rattle.poisson.specs.Tables.{l, u};
ghost use Rattle.campaign_state.specs.Kept.{Kept};
ghost use Rattle.campaign_state.specs.State.{censored};
ghost use Rattle.campaign_verdict.specs.Answers.{Judges, counting, rating};
ghost use Rattle.campaign_verdict.specs.Figures.{IsVerdict, accepts, quotient, rejects, three};

use campaign_state::Campaign;
use refusal::Refusal;

// Accept carries the upper rate, reject the lower, continue the lower and then the upper.
#[derive(Clone, Copy)]
pub enum Verdict {
    Accept(f64),
    Reject(f64),
    Continue(f64, f64),
    NoRecord,
}

// Failures in a second.
#[derive(Clone, Copy)]
pub struct Rates {
    pub estimate: f64,
    pub lower: f64,
    pub upper: f64,
}

// N*, of a state that keeps the relations. `Kept` stays a clause here and below: the public functions test `sound` of a
// state that anyone may hand in, and a type that has the relations as its invariant would be a second `Campaign`.
fn censored_of(c: Campaign) -> u64
    requires { Kept c }
    ensures { result ≡ censored c }
{
    if c.records == 0 {
        return 0;
    }
    c.failures - truth::pick(c.failed, 1, 0) + 1
}

// One rounded division of two whole numbers that f64 holds exactly.
fn quotient(n: u64, t: u64) -> f64
    requires { (n ≤ 9007199254740992) × (t ≤ 9007199254740992) }
    ensures { result ≡ quotient n t }
{
    (n as f64) / (t as f64)
}

// l(N).
fn low(c: Campaign) -> u64
    ensures { (result ≡ l c.failures) × (result ≤ 49287798) }
{
    poisson::lower_row(c.failures) as u64
}

// u(N*).
fn high(c: Campaign) -> u64
    requires { Kept c }
    ensures { (result ≡ u (censored c)) × (result ≤ 80604368) }
{
    poisson::upper_row(censored_of(c)) as u64
}

// The tests and the rates are handed the row that they need: a row is looked up once for all that it serves.
fn rejects(c: Campaign, low: u64) -> bool
    requires { Kept c × (low ≡ l c.failures) × (low ≤ 49287798) }
    ensures { result ≡ rejects c }
{
    c.exposure * 1_000_000 < low * c.standard
}

fn accepts(c: Campaign, high: u64) -> bool
    requires { Kept c × (high ≡ u (censored c)) × (high ≤ 80604368) }
    ensures { result ≡ accepts c }
{
    high * c.standard < c.exposure * 1_000_000
}

// The rate of a row: its millionths of a failure in so many ms.
fn rate_of(c: Campaign, row: u64) -> f64
    requires { Kept c × (row ≤ 80604368) }
    ensures { result ≡ quotient row (c.exposure * 1000) }
{
    quotient(row, c.exposure * 1_000)
}

// The verdict of a state with a record.
fn weigh(c: Campaign) -> Verdict
    requires { Kept c × (1 ≤ c.records) }
    ensures { IsVerdict c result }
{
    let l = low(c);
    if rejects(c, l) {
        return Verdict::Reject(rate_of(c, l));
    }
    let u = high(c);
    if accepts(c, u) {
        return Verdict::Accept(rate_of(c, u));
    }
    Verdict::Continue(rate_of(c, l), rate_of(c, u))
}

// The three rates of a state with a record.
fn three(c: Campaign) -> Rates
    requires { Kept c }
    ensures { result ≡ three c }
{
    Rates {
        estimate: quotient(c.failures * 1_000, c.exposure),
        lower: rate_of(c, low(c)),
        upper: rate_of(c, high(c)),
    }
}

// The censored count N*; or refusal 8.
pub fn censored(c: Campaign) -> Result<u64, Refusal>
    ensures { result ≡ counting c }
{
    if !campaign_state::sound(c) {
        return Err(Refusal::BrokenState);
    }
    Ok(censored_of(c))
}

// The verdict; or refusal 8.
pub fn judge(c: Campaign) -> Result<Verdict, Refusal>
    ensures { Judges c result }
{
    if !campaign_state::sound(c) {
        return Err(Refusal::BrokenState);
    }
    if c.records == 0 {
        return Ok(Verdict::NoRecord);
    }
    Ok(weigh(c))
}

// The rates and whether there is a record; or refusal 8.
pub fn rate(c: Campaign) -> Result<Option<Rates>, Refusal>
    ensures { result ≡ rating c }
{
    if !campaign_state::sound(c) {
        return Err(Refusal::BrokenState);
    }
    if c.records == 0 {
        return Ok(None);
    }
    Ok(Some(three(c)))
}
