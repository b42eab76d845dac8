// Document 01's cases of a campaign, run through the code: a row of the table for each, and a line for each row. J
// and K are weighed on both sides of their edge; the others end records, show their results and enter them, until a
// refusal. D = 500, a = 40,000. demands_slate has J and K of the definitions.
#![tactic(auto)]

use campaign_state::Campaign;
use campaign_verdict::Verdict;
use record_end::{Outcome, RecordResult};
use record_state::Record;
use refusal::Refusal;
use sample_channels::{Levels, Moment};
use sample_items::Items;

// Of each row: the campaign's standard, M, N, T, and 1 if the last record failed; a campaign without a record is
// opened. Then a record, by its number (`numbered`), and how often its result is entered; the number of one record
// more, 8 for an outcome told by hand, 9 for none; and that one's exposure. A row is an array and no struct: 9 names in
// each of 23 would be no plainer.
const ROWS: [[u64; 9]; 23] = [
    // J and K, and one ms more of each
    [7_200_000, 3, 0, 26_559_936, 0, 0, 0, 9, 0],
    [7_200_000, 3, 0, 26_559_937, 0, 0, 0, 9, 0],
    [7_200_000, 1, 1, 182_282, 1, 0, 0, 9, 0],
    [7_200_000, 1, 1, 182_283, 1, 0, 0, 9, 0],
    // N above M; 64 failures, and the last record none
    [7_200_000, 1, 2, 1_000, 1, 0, 0, 9, 0],
    [7_200_000, 65, 64, 1_000, 0, 0, 0, 9, 0],
    // the standard at the ends of its range and past them
    [0, 0, 0, 0, 0, 0, 0, 9, 0],
    [1, 0, 0, 0, 0, 0, 0, 9, 0],
    [100_000_000_000, 0, 0, 0, 0, 0, 0, 9, 0],
    [100_000_000_001, 0, 0, 0, 0, 0, 0, 9, 0],
    // one sample ended, two, a failure; a broken record
    [7_200_000, 0, 0, 0, 0, 0, 1, 9, 0],
    [7_200_000, 0, 0, 0, 0, 1, 1, 9, 0],
    [7_200_000, 0, 0, 0, 0, 2, 1, 9, 0],
    [7_200_000, 0, 0, 0, 0, 3, 1, 9, 0],
    // outcomes told by hand: no exposure, the least, the most, and one ms more
    [7_200_000, 0, 0, 0, 0, 0, 0, 8, 0],
    [7_200_000, 0, 0, 0, 0, 0, 0, 8, 1],
    [7_200_000, 0, 0, 0, 0, 0, 0, 8, 10_000_000],
    [7_200_000, 0, 0, 0, 0, 0, 0, 8, 10_000_001],
    // 64 failures, and one record more; 100,000 records, and one more
    [7_200_000, 0, 0, 0, 0, 2, 64, 9, 0],
    [7_200_000, 0, 0, 0, 0, 2, 64, 1, 0],
    [7_200_000, 0, 0, 0, 0, 1, 100_000, 9, 0],
    [7_200_000, 0, 0, 0, 0, 1, 100_000, 2, 0],
    // a broken result into a full campaign
    [7_200_000, 0, 0, 0, 0, 1, 100_000, 8, 0],
];

// What is written: a write that fails is passed over, and so are those after it.
fn refused(out: &impl Print, f: Refusal) {
    let number = refusal::number(f);
    let with = refusal::carried(f);
    let _ = print!(out; " refused {number} with {with}");
}

fn censored(out: &impl Print, c: Campaign) {
    match campaign_verdict::censored(c) {
        Ok(n) => {
            let _ = print!(out; " N* {n}");
        }
        Err(f) => refused(out, f),
    }
}

fn letter(out: &impl Print, v: Verdict) {
    let _ = match v {
        Verdict::Accept(_) => print!(out; " accept"),
        Verdict::Reject(_) => print!(out; " reject"),
        Verdict::Continue(_, _) => print!(out; " continue"),
        Verdict::NoRecord => print!(out; " no record"),
    };
}

fn verdict(out: &impl Print, c: Campaign) {
    match campaign_verdict::judge(c) {
        Ok(v) => letter(out, v),
        Err(f) => refused(out, f),
    }
}

fn known(out: &impl Print, c: Campaign) {
    match campaign_verdict::rate(c) {
        Ok(rates) => {
            let no = if rates.is_some() { "" } else { " no" };
            let _ = print!(out; "{no} rates");
        }
        Err(f) => refused(out, f),
    }
}

fn figures(out: &impl Print, c: Campaign) {
    let _ = print!(out; " M {} N {}", c.records, c.failures);
    censored(out, c);
    let _ = print!(out; " T {}", c.exposure);
    verdict(out, c);
    known(out, c);
}

fn answer(out: &impl Print, a: Result<Campaign, Refusal>) {
    match a {
        Ok(c) => figures(out, c),
        Err(f) => refused(out, f),
    }
}

fn broken() -> Record {
    Record {
        items: Items {
            step: 0,
            ramp: 0,
            levels: Levels {
                roll: 0,
                acceleration: 0,
            },
            decorrelation: 0,
        },
        n: 0,
        last: Moment {
            roll: 0,
            acceleration: 0,
        },
        crossings: 0,
        largest: 0,
        first: 0,
        last_chosen: 0,
        last_crossing: 0,
        groups: 0,
    }
}

// A record fed as one piece; one that was refused is left broken, so that ending refuses it too.
fn fed(roll: &[i32], acceleration: &[i32]) -> Record {
    let items = Items {
        step: 500,
        ramp: 0,
        levels: Levels {
            roll: 40_000,
            acceleration: 9810,
        },
        decorrelation: 2000,
    };
    let Ok(r) = record_state::open(items) else {
        return broken();
    };
    let Ok(s) = record_feed::feed(r, roll, acceleration) else {
        return broken();
    };
    s
}

fn numbered(i: u64) -> Record {
    match i {
        0 => fed(&[0i32], &[0i32]),
        1 => fed(&[0i32, 0], &[0i32, 0]),
        2 => fed(&[0i32, 41000, 0], &[0i32, 0, 0]),
        _ => fed(&[2_000_000i32], &[0i32]),
    }
}

fn seen(out: &impl Print, a: Result<RecordResult, Refusal>) {
    match a {
        Ok(x) => {
            let _ = print!(out; " crossings {} counted {}", x.crossings, x.counted);
            let _ = print!(out; " largest set {} first {}", x.largest, x.first);
            let _ = print!(out; " exposure {}", x.exposure);
        }
        Err(f) => refused(out, f),
    }
}

// What entering an outcome gives after an answer; a refusal stays.
fn told(a: Result<Campaign, Refusal>, o: Outcome) -> Result<Campaign, Refusal> {
    a?.enter(o)
}

// What entering a result gives after an answer; a refusal stays.
fn then(
    a: Result<Campaign, Refusal>,
    e: Result<RecordResult, Refusal>,
) -> Result<Campaign, Refusal> {
    told(a, e?.outcome())
}

// The same result so many times over.
fn again(
    a: Result<Campaign, Refusal>,
    e: Result<RecordResult, Refusal>,
    times: u64,
) -> Result<Campaign, Refusal> {
    let mut b = a;
    for _ in 0..times {
        b = then(b, e);
    }
    b
}

// The campaign that a row starts from.
fn start(row: [u64; 9]) -> Result<Campaign, Refusal> {
    if row[1] == 0 {
        return campaign_state::open(row[0]);
    }
    Ok(Campaign {
        standard: row[0],
        records: row[1],
        failures: row[2],
        exposure: row[3],
        failed: row[4] == 1,
    })
}

// One more, after an answer.
fn more(row: [u64; 9], a: Result<Campaign, Refusal>) -> Result<Campaign, Refusal> {
    if row[7] == 9 {
        return a;
    }
    if row[7] == 8 {
        return told(
            a,
            Outcome {
                failed: false,
                exposure: row[8],
            },
        );
    }
    then(a, record_end::end(numbered(row[7])))
}

fn entered(out: &impl Print, row: [u64; 9]) {
    let e = record_end::end(numbered(row[5]));
    if row[6] > 0 {
        seen(out, e);
    }
    answer(out, more(row, again(start(row), e, row[6])));
}

fn main(rt: HostRuntime) {
    for (i, row) in ROWS.iter().enumerate() {
        let _ = print!(rt; "row {}", i + 1);
        entered(&rt, *row);
        let _ = println!(rt);
    }
}
