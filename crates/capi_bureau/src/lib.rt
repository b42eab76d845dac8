// The bench for C and whatever calls C: a table is 32 rows of six numbers, and the five entries work on it through
// the clerk's steps (clerk), as `bureau_entries` does on a table of places. Each function answers 0 or the refusal's
// number and writes what goes with it to `carried`; a refusal leaves the table and the rates as they stood. Any
// numbers in the rows are an answer, 8 where they are no table.
#![tactic(auto)]

ghost use Rattle.std.specs.Prelude.{◌≡◌, cond, ◌<◌, length, set};
ghost use Rattle.bureau_table.specs.Calls.{called};
ghost use Rattle.bureau_survey.specs.Survey.{looked, unseen};
ghost use Rattle.bureau_table.specs.declared.Ask.TheVariants.{On, Take};
ghost use Rattle.bureau_table.specs.declared.Work.TheVariants.{Enter, GiveBack, Judge, Rate};
ghost use Rattle.capi_verdict.specs.Told.{count, judgement, rates, ratings};
ghost use Rattle.capi_bureau.specs.Rows.{of_place, outcome_of, place_of, places_of, rows_left};
ghost use Rattle.capi_bureau.specs.Rows.{same_place};
ghost use Rattle.capi_bureau.specs.Told.{judged, plain, rated};

use bureau_survey::Seen;
use bureau_table::{Ask, Call, Place, Reply, Work};
use campaign_state::Campaign;
use record_end::Outcome;
use refusal::Refusal;

fn place_of(r: [u64; 6]) -> Place
    ensures { result ≡ place_of r }
{
    Place {
        owner: truth::pick(r[5] <= 1, r[0], 3),
        campaign: Campaign {
            standard: r[1],
            records: r[2],
            failures: r[3],
            exposure: r[4],
            failed: r[5] == 1,
        },
    }
}

fn row_of(p: Place) -> [u64; 6]
    ensures { result ≡ of_place p }
{
    let c = p.campaign;
    [
        p.owner,
        c.standard,
        c.records,
        c.failures,
        c.exposure,
        capi::flag(c.failed),
    ]
}

// Every place, looked at.
fn look(table: &[[u64; 6]]) -> Seen
    ensures { result ≡ looked unseen 0 (places_of table.now) }
{
    let mut s = bureau_survey::unseen();
    for (i, row) in table.iter().enumerate() {
        s = bureau_survey::look(s, i, place_of(*row));
    }
    s
}

// A place that changed is written, another is left.
fn put(table: &mut [[u64; 6]], i: usize, p: Place, q: Place)
    requires { i < length table.old }
    ensures { table.new
        ≡ cond (same_place p q) table.old (set table.old i (of_place q)) }
{
    if p == q {
        return;
    }
    table[i] = row_of(q);
}

fn serve(table: &mut [[u64; 6]], c: Call) -> Result<Reply, Refusal>
    ensures { (result ≡ (called (places_of table.old) c.bureau c.ask).answer)
        × (table.new
        ≡ rows_left table.old (called (places_of table.old) c.bureau c.ask).table) }
{
    let n = table.len();
    let d = bureau_choice::choose(c, look(table), n);
    let at = d.at;
    if at < n {
        let r = table[at];
        let p = place_of(r);
        let w = bureau_choice::act(c, d, p);
        let q = w.place;
        put(table, at, p, q);
        return w.answer;
    }
    d.answer
}

// What an answer without rates tells: the place where a job was taken, else nothing.
#[tactic(auto, unfolding(crate::specs::Told::plain))]
fn tell(a: Result<Reply, Refusal>, carried: &mut u64) -> u64
    ensures { count result carried.new ≡ plain a }
{
    match a {
        Ok(Reply::Placed(i)) => capi::give(i, carried),
        Ok(Reply::Entered) => capi::give(0, carried),
        Ok(Reply::Judged(_)) => capi::give(0, carried),
        Ok(Reply::Rated(_)) => capi::give(0, carried),
        Ok(Reply::Freed) => capi::give(0, carried),
        Err(f) => capi::refuse(f, carried),
    }
}

#[tactic(auto, unfolding(crate::specs::Told::judged))]
fn tell_verdict(
    a: Result<Reply, Refusal>,
    lower: &mut f64,
    upper: &mut f64,
    carried: &mut u64,
) -> u64
    ensures { judgement result carried.new lower.new upper.new
        ≡ judged a lower.old upper.old }
{
    match a {
        Ok(Reply::Judged(v)) => capi_verdict::tell(v, lower, upper, carried),
        Err(f) => capi::refuse(f, carried),
        Ok(Reply::Placed(_)) => capi::give(0, carried),
        Ok(Reply::Entered) => capi::give(0, carried),
        Ok(Reply::Rated(_)) => capi::give(0, carried),
        Ok(Reply::Freed) => capi::give(0, carried),
    }
}

#[tactic(auto, unfolding(crate::specs::Told::rated))]
fn tell_rates(
    a: Result<Reply, Refusal>,
    estimate: &mut f64,
    lower: &mut f64,
    upper: &mut f64,
    carried: &mut u64,
) -> u64
    ensures { ratings result carried.new
        (rates estimate.new lower.new upper.new)
        ≡ rated a (rates estimate.old lower.old upper.old) }
{
    match a {
        Ok(Reply::Rated(r)) => capi_verdict::tell_rates(r, estimate, lower, upper, carried),
        Err(f) => capi::refuse(f, carried),
        Ok(Reply::Placed(_)) => capi::give(0, carried),
        Ok(Reply::Entered) => capi::give(0, carried),
        Ok(Reply::Judged(_)) => capi::give(0, carried),
        Ok(Reply::Freed) => capi::give(0, carried),
    }
}

fn outcome_of(failed: u64, exposure: u64) -> Outcome
    ensures { result ≡ outcome_of failed exposure }
{
    if failed <= 1 {
        return Outcome {
            failed: failed == 1,
            exposure: exposure,
        };
    }
    Outcome {
        failed: false,
        exposure: 0,
    }
}

// A job at this standard for the bureau; its place in `carried`. Refusals 8, 13, 14, 1 with item 5.
pub fn chim_bench_take(table: &mut [[u64; 6]], bureau: u64, standard: u64, carried: &mut u64) -> u64
    ensures { (count result carried.new
        ≡ plain (called (places_of table.old) bureau (Take standard)).answer)
        × (table.new
        ≡ rows_left table.old (called (places_of table.old) bureau (Take standard)).table) }
{
    let c = Call {
        bureau: bureau,
        ask: Ask::Take(standard),
    };
    tell(serve(table, c), carried)
}

// A result entered into the campaign in the bureau's place: whether there is a first failure (1) or not (0), and the
// exposure. Refusals 8, 13, 15, 8 for the result, 5, 6.
pub fn chim_bench_enter(
    table: &mut [[u64; 6]],
    bureau: u64,
    place: u64,
    failed: u64,
    exposure: u64,
    carried: &mut u64,
) -> u64
    ensures { (count result carried.new
        ≡ plain (called (places_of table.old) bureau (On place (Enter (outcome_of failed exposure)))
        ).answer)
        × (table.new
        ≡ rows_left table.old
        (called (places_of table.old) bureau (On place (Enter (outcome_of failed exposure)))).table) }
{
    let o = outcome_of(failed, exposure);
    let c = Call {
        bureau: bureau,
        ask: Ask::On(place, Work::Enter(o)),
    };
    tell(serve(table, c), carried)
}

// The bureau's place is free again. Refusals 8, 13, 15.
pub fn chim_bench_give_back(
    table: &mut [[u64; 6]],
    bureau: u64,
    place: u64,
    carried: &mut u64,
) -> u64
    ensures { (count result carried.new
        ≡ plain (called (places_of table.old) bureau (On place GiveBack)).answer)
        × (table.new
        ≡ rows_left table.old (called (places_of table.old) bureau (On place GiveBack)).table) }
{
    let c = Call {
        bureau: bureau,
        ask: Ask::On(place, Work::GiveBack),
    };
    tell(serve(table, c), carried)
}

// The verdict of the campaign in the bureau's place, told as chim_campaign_verdict tells it. Refusals 8, 13, 15.
pub fn chim_bench_verdict(
    table: &mut [[u64; 6]],
    bureau: u64,
    place: u64,
    lower: &mut f64,
    upper: &mut f64,
    carried: &mut u64,
) -> u64
    ensures { (judgement result carried.new lower.new upper.new
        ≡ judged (called (places_of table.old) bureau (On place Judge)).answer lower.old
        upper.old)
        × (table.new
        ≡ rows_left table.old (called (places_of table.old) bureau (On place Judge)).table) }
{
    let c = Call {
        bureau: bureau,
        ask: Ask::On(place, Work::Judge),
    };
    tell_verdict(serve(table, c), lower, upper, carried)
}

// The rates of the campaign in the bureau's place, told as chim_campaign_rates tells them. Refusals 8, 13, 15.
pub fn chim_bench_rates(
    table: &mut [[u64; 6]],
    bureau: u64,
    place: u64,
    estimate: &mut f64,
    lower: &mut f64,
    upper: &mut f64,
    carried: &mut u64,
) -> u64
    ensures { (ratings result carried.new
        (rates estimate.new lower.new upper.new)
        ≡ rated (called (places_of table.old) bureau (On place Rate)).answer
        (rates estimate.old lower.old upper.old))
        × (table.new
        ≡ rows_left table.old (called (places_of table.old) bureau (On place Rate)).table) }
{
    let c = Call {
        bureau: bureau,
        ask: Ask::On(place, Work::Rate),
    };
    tell_rates(serve(table, c), estimate, lower, upper, carried)
}
