// A campaign for C: opening, and entering a result, by what a campaign takes of it or by its five numbers. Each
// function answers 0 or document 01's refusal number and writes what goes with it to `carried`; a refusal leaves the
// lent array as it stood.
#![tactic(auto)]

ghost use Rattle.std.specs.Prelude.{◌≡◌};
ghost use Rattle.capi.specs.Told.{told};
ghost use Rattle.capi.specs.Numbers.{no_result, result_of};
ghost use Rattle.capi_campaign.specs.Told.{campaign_entered, campaign_opened, campaign_result_entered};

use record_end::{Outcome, RecordResult};
use refusal::Refusal;

// A campaign without a record in `state`; or refusal 8 for an array of another length, 1 with item 5.
pub fn chim_campaign_open(standard: u64, state: &mut [u64], carried: &mut u64) -> u64
    ensures { told result carried.new state.new ≡ campaign_opened standard state.old }
{
    capi::keep_campaign(campaign_state::open(standard), state, carried)
}

// The campaign in `state` with a result entered: whether there is a first failure (1) or not (0), and the exposure;
// or refusal 8, for another flag or an exposure that is not from 1 to 10,000,000 too, 5, 6.
#[tactic(auto, unfolding(crate::specs::Told::campaign_entered))]
pub fn chim_campaign_enter(state: &mut [u64], failed: u64, exposure: u64, carried: &mut u64) -> u64
    ensures { told result carried.new state.new
        ≡ campaign_entered state.old failed exposure }
{
    if failed > 1 {
        return capi::refuse(Refusal::BrokenState, carried);
    }
    let c = capi::campaign_of(state);
    let o = Outcome {
        failed: failed == 1,
        exposure: exposure,
    };
    capi::keep_campaign(c.enter(o), state, carried)
}

// A result that no record has.
fn no_result() -> RecordResult
    ensures { result ≡ no_result }
{
    RecordResult {
        crossings: 0,
        counted: 0,
        first: 0,
        exposure: 0,
        largest: 0,
    }
}

// The result that an array holds.
#[tactic(auto, unfolding(capi::specs::Numbers::result_of))]
fn result_of(s: &[u64]) -> RecordResult
    ensures { result ≡ result_of s.now }
{
    if s.len() != capi::RESULT_NUMBERS {
        return no_result();
    }
    RecordResult {
        crossings: s[0],
        counted: s[1],
        first: s[2],
        exposure: s[3],
        largest: s[4],
    }
}

// The campaign in `state` with the result in `result` entered, of which only the first failure and the exposure are
// read; or refusal 8, for an array of another length or an exposure that is not from 1 to 10,000,000 too, 5, 6.
pub fn chim_campaign_enter_result(state: &mut [u64], res: &[u64], carried: &mut u64) -> u64
    ensures { told result carried.new state.new
        ≡ campaign_result_entered state.old res.now }
{
    let c = capi::campaign_of(state);
    let x = result_of(res);
    let o = x.outcome();
    capi::keep_campaign(c.enter(o), state, carried)
}
