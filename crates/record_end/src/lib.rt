// A record's result (document 02, [4]): a record is ended, and its crossings, count, first failure and exposure are
// there to be looked at before anything enters a campaign. What a campaign takes of a result is its outcome, and a
// job sheet's line, which knows no place and no crossings, is an outcome as it stands.
#![tactic(auto)]

ghost use Rattle.std.specs.Prelude.{◌≡◌, true, ◌+◌, ◌≤◌};
ghost use Rattle.record_state.specs.State.{sound};
ghost use Rattle.record_end.specs.Result.{ending, exposure_of, outcome_of};

use record_state::Record;
use refusal::Refusal;

// Whether there is a first failure, and the exposure in ms.
#[derive(Clone, Copy)]
pub struct Outcome {
    pub failed: bool,
    pub exposure: u64,
}

// Crossings, counted failures, which are the groups, the place of the first failure, 0 for none, the exposure in ms,
// and the largest set.
#[derive(Clone, Copy)]
pub struct RecordResult {
    pub crossings: u64,
    pub counted: u64,
    pub first: u64,
    pub exposure: u64,
    pub largest: u64,
}

// The time of the first failure, or else the full time.
fn exposure_of(r: Record) -> u64
    requires { (sound r ≡ true) × (r.items.ramp + 2 ≤ r.n) }
    ensures { result ≡ exposure_of r }
{
    if r.first == 0 {
        (r.n - 1 - r.items.ramp) * r.items.step
    } else {
        (r.first - r.items.ramp) * r.items.step
    }
}

// The record's result; or refusal 8, 4 for a record that is too short.
pub fn end(r: Record) -> Result<RecordResult, Refusal>
    ensures { result ≡ ending r }
{
    if !record_state::sound(r) {
        return Err(Refusal::BrokenState);
    }
    if r.n < r.items.ramp + 2 {
        return Err(Refusal::TooShort);
    }
    Ok(RecordResult {
        crossings: r.crossings,
        counted: r.groups,
        first: r.first,
        exposure: exposure_of(r),
        largest: r.largest,
    })
}

impl RecordResult {
    // What a campaign takes of it.
    pub fn outcome(self) -> Outcome
        ensures { result ≡ outcome_of self }
    {
        Outcome {
            failed: self.first != 0,
            exposure: self.exposure,
        }
    }
}
