// The campaign: many records by the exponential method (document 000, section 4), with document 01 deciding. Opening,
// and entering a record's outcome, which is all that a campaign takes of a record (document 02, [4]). The state goes
// in by value and comes back in the answer, so a refusal leaves the caller's as it stood.
#![tactic(auto)]

ghost use Rattle.std.specs.Prelude.{◌≡◌, ◌≤◌};
ghost use Rattle.sample_items.specs.Limits.{longest_time};
ghost use Rattle.campaign_state.specs.Kept.{Kept};
ghost use Rattle.campaign_state.specs.State.{figures_kept, last_kept, most_records, sound};
ghost use Rattle.campaign_state.specs.Answers.{entering, opened, taken};

use record_end::Outcome;
use refusal::Refusal;

// Document 01, "Numbers a job may carry".
pub const LONGEST_STANDARD: u64 = 100_000_000_000;

pub const MOST_RECORDS: u64 = 100_000;

pub const ROWS: u64 = 64;

// One failure in `standard` ms is asked for; M records, N failures, T ms of exposure; whether the last record failed.
#[derive(Clone, Copy, PartialEq, Eq)]
pub struct Campaign {
    pub standard: u64,
    pub records: u64,
    pub failures: u64,
    pub exposure: u64,
    pub failed: bool,
}

// The campaign without a record; or refusal 1 with item 5.
pub fn open(q: u64) -> Result<Campaign, Refusal>
    ensures { result ≡ opened q }
{
    if truth::both(1 <= q, q <= LONGEST_STANDARD) {
        Ok(Campaign {
            standard: q,
            records: 0,
            failures: 0,
            exposure: 0,
            failed: false,
        })
    } else {
        Err(Refusal::Item(5))
    }
}

// 01's relations that need no other: the standard, M, N and T.
fn figures_kept(c: Campaign) -> bool
    requires { c.records ≤ most_records }
    ensures { result ≡ figures_kept c }
{
    truth::both(
        truth::both(c.failures <= ROWS, c.failures <= c.records),
        truth::both(
            c.records <= c.exposure,
            c.exposure <= c.records * sample_items::LONGEST_TIME,
        ),
    )
}

// 01's relations about the last record.
fn last_kept(c: Campaign) -> bool
    ensures { result ≡ last_kept c }
{
    truth::both(
        truth::either(!c.failed, 1 <= c.failures),
        truth::both(
            truth::either(
                !truth::both(!c.failed, 1 <= c.records),
                c.failures < c.records,
            ),
            truth::both(
                truth::either(c.records != 0, !c.failed),
                truth::either(c.failures != ROWS, c.failed),
            ),
        ),
    )
}

// Whether a state keeps document 01's relations for refusal 8.
pub fn sound(c: Campaign) -> bool
    ensures { result ≡ sound c }
{
    if c.records > MOST_RECORDS {
        return false;
    }
    truth::both(
        truth::both(1 <= c.standard, c.standard <= LONGEST_STANDARD),
        truth::both(figures_kept(c), last_kept(c)),
    )
}

// The campaign with a record entered; or refusal 5, then 6.
fn take(c: Campaign, failed: bool, exposure: u64) -> Result<Campaign, Refusal>
    requires { Kept c × (exposure ≤ longest_time) }
    ensures { result ≡ taken c failed exposure }
{
    if c.records == MOST_RECORDS {
        return Err(Refusal::CampaignFull);
    }
    if c.failures == ROWS {
        return Err(Refusal::RowsUsedUp);
    }
    Ok(Campaign {
        standard: c.standard,
        records: c.records + 1,
        failures: truth::pick(failed, c.failures + 1, c.failures),
        exposure: c.exposure + exposure,
        failed: failed,
    })
}

impl Campaign {
    // The campaign with a record's outcome entered; or refusal 8 for the campaign, or for an exposure that is not
    // from 1 to 10,000,000 ms, 5, 6.
    pub fn enter(self, o: Outcome) -> Result<Campaign, Refusal>
        ensures { result ≡ entering self o }
    {
        if !sound(self) {
            return Err(Refusal::BrokenState);
        }
        if !truth::both(1 <= o.exposure, o.exposure <= sample_items::LONGEST_TIME) {
            return Err(Refusal::BrokenState);
        }
        take(self, o.failed, o.exposure)
    }
}
