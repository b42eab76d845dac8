// A sum of records by the binomial method (document 003, the third procedure; document 02, [7]): records go on past a
// failure, and what is added up of each is its counted groups and its timed samples. Opening, and adding a record.
// The state goes in by value and comes back in the answer, so a refusal leaves the caller's as it stood.
#![tactic(auto)]

ghost use Rattle.std.specs.Prelude.{◌≡◌, ◌≤◌};
ghost use Rattle.binomial_sum.specs.Kept.{Kept};
ghost use Rattle.binomial_sum.specs.State.{sound};
ghost use Rattle.binomial_sum.specs.Answers.{adding, opened, taken};

use record_state::Record;
use refusal::Refusal;

pub const MOST_FAILURES: u64 = 10_000;

pub const MOST_SAMPLES: u64 = 100_000_000;

// The step D of all its records in ms; N, their counted groups, and P, their timed samples.
#[derive(Clone, Copy)]
pub struct Sum {
    pub step: u64,
    pub failures: u64,
    pub samples: u64,
}

// The sum of no records; or refusal 1 with item 1.
pub fn open(step: u64) -> Result<Sum, Refusal>
    ensures { result ≡ opened step }
{
    if truth::both(1 <= step, step <= sample_items::LONGEST_STEP) {
        Ok(Sum {
            step: step,
            failures: 0,
            samples: 0,
        })
    } else {
        Err(Refusal::Item(1))
    }
}

// Whether a state keeps the relations for refusal 8.
pub fn sound(s: Sum) -> bool
    ensures { result ≡ sound s }
{
    truth::both(
        truth::both(1 <= s.step, s.step <= sample_items::LONGEST_STEP),
        truth::both(
            s.failures <= MOST_FAILURES,
            truth::both(s.samples <= MOST_SAMPLES, s.failures <= s.samples),
        ),
    )
}

// The sum with a record of so many groups and timed samples; or refusal 11.
fn take(s: Sum, groups: u64, timed: u64) -> Result<Sum, Refusal>
    requires { Kept s × (groups ≤ 11000001) × (timed ≤ 11000001) }
    ensures { result ≡ taken s groups timed }
{
    if truth::either(
        s.failures + groups > MOST_FAILURES,
        s.samples + timed > MOST_SAMPLES,
    ) {
        return Err(Refusal::SumFull);
    }
    Ok(Sum {
        step: s.step,
        failures: s.failures + groups,
        samples: s.samples + timed,
    })
}

impl Sum {
    // The sum with a record added; or refusal 8 for the sum or for the record, 4 for a record that is too short, 1
    // with item 1 for another step, 11.
    pub fn add(self, r: Record) -> Result<Sum, Refusal>
        ensures { result ≡ adding self r }
    {
        if !sound(self) {
            return Err(Refusal::BrokenState);
        }
        if !record_state::sound(r) {
            return Err(Refusal::BrokenState);
        }
        if r.n < r.items.ramp + 2 {
            return Err(Refusal::TooShort);
        }
        if r.items.step != self.step {
            return Err(Refusal::Item(1));
        }
        take(self, r.groups, r.n - r.items.ramp)
    }
}
