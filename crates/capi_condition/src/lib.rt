// A loading condition for C and whatever calls C: a row of five numbers for each design situation's campaign, as
// everywhere in this interface. Each function answers 0 or the refusal number and writes what goes with it to
// `carried`; a refusal leaves the lent bytes as they stood. Any numbers in the rows are an answer, 8 where a row is
// no campaign.
#![tactic(auto)]

ghost use Rattle.std.specs.Prelude.{◌≡◌, [], ◌≤◌, length, take};
ghost use Rattle.capi.specs.Numbers.{campaign_of};
ghost use Rattle.capi.specs.Told.{told};
ghost use Rattle.capi_condition.specs.Told.{campaigns_of, condition_judged, condition_reported, standing_code};

use campaign_condition::Standing;
use campaign_state::Campaign;
use refusal::Refusal;

fn standing_code(s: Standing) -> u64
    ensures { result ≡ standing_code s }
{
    match s {
        Standing::Accepted => 1,
        Standing::Rejected => 2,
        Standing::Open => 3,
    }
}

// The campaign of a row.
fn campaign_of(row: [u64; 5]) -> Campaign
    ensures { result ≡ campaign_of row }
{
    capi::campaign_of(&row)
}

// The campaigns of the rows, at the start of 64 places.
fn campaigns_of(rows: &[[u64; 5]]) -> [Campaign; 64]
    requires { length rows.now ≤ 64 }
    ensures { take (length rows.now) result ≡ campaigns_of rows.now }
{
    let none = Campaign {
        standard: 0,
        records: 0,
        failures: 0,
        exposure: 0,
        failed: false,
    };
    let mut all = [none; 64];
    for i in 0..rows.len() {
        let r = rows[i];
        all[i] = campaign_of(r);
    }
    all
}

// Where the condition stands, in `carried`: 1 accepted, 2 rejected, 3 open. Refusals 18, 8 with the lowest situation.
#[tactic(auto, unfolding(crate::specs::Told::judge_told))]
pub fn chim_condition_judge(campaigns: &[[u64; 5]], carried: &mut u64) -> u64
    ensures { told result carried.new [] ≡ condition_judged campaigns.now }
{
    if campaigns.len() > campaign_condition::MOST_SITUATIONS {
        return capi::refuse(Refusal::Situations, carried);
    }
    match campaign_condition::judge(campaigns_of(campaigns), campaigns.len()) {
        Ok(s) => capi::give(standing_code(s), carried),
        Err(f) => capi::refuse(f, carried),
    }
}

// The report in `out`, its bytes in `carried`. Refusals 18, 8 with the lowest situation, 7 with the bytes needed.
#[tactic(auto, unfolding(capi::specs::Told::write_told))]
pub fn chim_condition_report(campaigns: &[[u64; 5]], out: &mut [u8], carried: &mut u64) -> u64
    ensures { told result carried.new out.new
        ≡ condition_reported campaigns.now out.old }
{
    if campaigns.len() > campaign_condition::MOST_SITUATIONS {
        return capi::refuse(Refusal::Situations, carried);
    }
    capi::tell_writing(
        campaign_report::write(campaigns_of(campaigns), campaigns.len(), out),
        carried,
    )
}
