// States as numbers, for C and whatever calls C: a record's state is an array of fourteen numbers, a campaign's of
// five, a result of five. Here is what a lent array holds, what it is left with after an answer, and how a refusal is
// told: its number is answered, and what goes with it is written to `carried`. Any numbers are taken: those that are
// no state are read as one that every entry refuses by 8.
#![tactic(auto)]

ghost use Rattle.std.specs.Prelude.{◌≡◌, cond, [], ◌≤◌, eqb, length};
ghost use Rattle.refusal.specs.declared.Refusal.TheVariants.{BrokenState};
ghost use Rattle.refusal.specs.Numbers.{number_of, value_of};
ghost use Rattle.capi.specs.Numbers.{code_of, sample_of, highest_code, no_record, record_of, of_record, of_result};
ghost use Rattle.capi.specs.Numbers.{no_campaign, campaign_of, of_campaign, flag};
ghost use Rattle.capi.specs.Told.{told, placed, in_places, channel_in, record_kept, result_kept};
ghost use Rattle.capi.specs.Told.{campaign_kept, write_told};

use campaign_state::Campaign;
use record_end::RecordResult;
use record_state::Record;
use refusal::Refusal;
use sample_channels::{Levels, Moment};
use sample_items::Items;

// How many numbers a state has.
pub const RECORD_NUMBERS: usize = 14;

pub const RESULT_NUMBERS: usize = 5;

pub const CAMPAIGN_NUMBERS: usize = 5;

// What a call that is taken answers.
pub const TAKEN: u64 = 0;

// The code of the highest sample in range.
const HIGHEST_CODE: u64 = 2_000_000;

fn code_of(x: i32) -> u64
    ensures { result ≡ code_of x }
{
    let m = sample_size::magnitude(x) as u64;
    if x < 0 { m + m - 1 } else { m + m }
}

#[tactic(auto, unfolding(crate::specs::Numbers::sample_of))]
fn sample_of(code: u64) -> i32
    requires { code ≤ highest_code }
    ensures { result ≡ sample_of code }
{
    let half = (code / 2) as i32;
    if code % 2 == 0 { half } else { -1 - half }
}

// A state that no record has.
fn no_record() -> Record
    ensures { result ≡ no_record }
{
    Record {
        items: Items {
            step: 0,
            ramp: 0,
            levels: Levels {
                roll: 0,
                acceleration: 0,
            },
            decorrelation: 0,
        },
        n: 0,
        last: Moment {
            roll: 0,
            acceleration: 0,
        },
        crossings: 0,
        largest: 0,
        first: 0,
        last_chosen: 0,
        last_crossing: 0,
        groups: 0,
    }
}

// The record that an array holds.
#[tactic(auto, unfolding(crate::specs::Numbers::record_of))]
pub fn record_of(s: &[u64]) -> Record
    ensures { result ≡ record_of s.now }
{
    if s.len() != RECORD_NUMBERS {
        return no_record();
    }
    if s[5] > HIGHEST_CODE {
        return no_record();
    }
    if s[13] > HIGHEST_CODE {
        return no_record();
    }
    let items = Items {
        step: s[0],
        ramp: s[1],
        levels: Levels {
            roll: s[2],
            acceleration: s[12],
        },
        decorrelation: s[3],
    };
    let last = Moment {
        roll: sample_of(s[5]),
        acceleration: sample_of(s[13]),
    };
    Record {
        items,
        n: s[4],
        last,
        crossings: s[6],
        largest: s[7],
        first: s[8],
        last_chosen: s[9],
        last_crossing: s[10],
        groups: s[11],
    }
}

fn of_record(r: Record) -> [u64; 14]
    ensures { result ≡ of_record r }
{
    let items = r.items;
    let levels = items.levels;
    let last = r.last;
    [
        items.step,
        items.ramp,
        levels.roll,
        items.decorrelation,
        r.n,
        code_of(last.roll),
        r.crossings,
        r.largest,
        r.first,
        r.last_chosen,
        r.last_crossing,
        r.groups,
        levels.acceleration,
        code_of(last.acceleration),
    ]
}

fn of_result(x: RecordResult) -> [u64; 5]
    ensures { result ≡ of_result x }
{
    [x.crossings, x.counted, x.first, x.exposure, x.largest]
}

// A state that no campaign has.
fn no_campaign() -> Campaign
    ensures { result ≡ no_campaign }
{
    Campaign {
        standard: 0,
        records: 0,
        failures: 0,
        exposure: 0,
        failed: false,
    }
}

// The campaign that an array holds.
#[tactic(auto, unfolding(crate::specs::Numbers::campaign_of))]
pub fn campaign_of(s: &[u64]) -> Campaign
    ensures { result ≡ campaign_of s.now }
{
    if s.len() != CAMPAIGN_NUMBERS {
        return no_campaign();
    }
    if s[4] > 1 {
        return no_campaign();
    }
    Campaign {
        standard: s[0],
        records: s[1],
        failures: s[2],
        exposure: s[3],
        failed: s[4] == 1,
    }
}

// 1 for yes, 0 for no.
pub fn flag(b: bool) -> u64
    ensures { result ≡ flag b }
{
    if b { 1 } else { 0 }
}

fn of_campaign(c: Campaign) -> [u64; 5]
    ensures { result ≡ of_campaign c }
{
    [
        c.standard,
        c.records,
        c.failures,
        c.exposure,
        flag(c.failed),
    ]
}

// `to` takes the numbers if it has as many places; else it stays.
#[tactic(auto, unfolding(crate::specs::Told::placed))]
pub fn put(from: &[u64], to: &mut [u64])
    ensures { to.new ≡ placed from.now to.old }
{
    if to.len() != from.len() {
        return;
    }
    to.copy_from_slice(from);
}

// An answer that is one number.
pub fn give(answer: u64, carried: &mut u64) -> u64
    ensures { (result ≡ 0) × (carried.new ≡ answer) }
{
    *carried = answer;
    TAKEN
}

// A refusal, with what document 01 returns with it.
pub fn refuse(f: Refusal, carried: &mut u64) -> u64
    ensures { (result ≡ number_of f) × (carried.new ≡ value_of f) }
{
    *carried = refusal::carried(f);
    refusal::number(f)
}

// What writing a text came to: 0 and its bytes, or the refusal.
#[tactic(auto, unfolding(crate::specs::Told::write_told))]
pub fn tell_writing(w: Result<u64, Refusal>, carried: &mut u64) -> u64
    ensures { told result carried.new [] ≡ write_told w [] }
{
    match w {
        Ok(n) => give(n, carried),
        Err(f) => refuse(f, carried),
    }
}

// The numbers of an answer that was taken, in `state`; or refusal 8 for an array of another length.
#[tactic(auto, unfolding(crate::specs::Told::placed))]
pub fn keep(numbers: &[u64], state: &mut [u64], carried: &mut u64) -> u64
    ensures { told result carried.new state.new
        ≡ in_places (length numbers.now) state.old (told 0 0 numbers.now) }
{
    if state.len() != numbers.len() {
        return refuse(Refusal::BrokenState, carried);
    }
    put(numbers, state);
    give(0, carried)
}

// The refusal of an answer that has so many numbers, or 8 where the array lent for them has another length.
pub fn for_places(f: Refusal, places: usize, lent: usize) -> Refusal
    ensures { result ≡ cond (eqb lent places) f BrokenState }
{
    if lent == places {
        f
    } else {
        Refusal::BrokenState
    }
}

// The record of an answer in `state`; or refusal 8 for an array of another length, else the answer's.
#[tactic(auto, unfolding(crate::specs::Told::record_kept, crate::specs::Told::record_told))]
pub fn keep_record(a: Result<Record, Refusal>, state: &mut [u64], carried: &mut u64) -> u64
    ensures { told result carried.new state.new ≡ record_kept a state.old }
{
    match a {
        Ok(s) => {
            let numbers = of_record(s);
            keep(&numbers, state, carried)
        }
        Err(f) => refuse(for_places(f, RECORD_NUMBERS, state.len()), carried),
    }
}

// The channel that an answer names.
#[tactic(auto, unfolding(crate::specs::Told::channel_in))]
pub fn channel_in(a: Result<Record, Refusal>) -> u64
    ensures { result ≡ channel_in a }
{
    match a {
        Ok(_) => 0,
        Err(f) => refusal::channel(f),
    }
}

// The result of an answer in `result`; or refusal 8 for an array of another length, else the answer's.
#[tactic(auto, unfolding(crate::specs::Told::result_kept, crate::specs::Told::result_told))]
pub fn keep_result(a: Result<RecordResult, Refusal>, res: &mut [u64], carried: &mut u64) -> u64
    ensures { told result carried.new res.new ≡ result_kept a res.old }
{
    match a {
        Ok(x) => {
            let numbers = of_result(x);
            keep(&numbers, res, carried)
        }
        Err(f) => refuse(for_places(f, RESULT_NUMBERS, res.len()), carried),
    }
}

// The campaign of an answer in `state`; or refusal 8 for an array of another length, else the answer's.
#[tactic(auto, unfolding(crate::specs::Told::campaign_kept, crate::specs::Told::campaign_told))]
pub fn keep_campaign(a: Result<Campaign, Refusal>, state: &mut [u64], carried: &mut u64) -> u64
    ensures { told result carried.new state.new ≡ campaign_kept a state.old }
{
    match a {
        Ok(s) => {
            let numbers = of_campaign(s);
            keep(&numbers, state, carried)
        }
        Err(f) => refuse(for_places(f, CAMPAIGN_NUMBERS, state.len()), carried),
    }
}
