// Two bureaus work through document 003's campaign side by side at one table (document 02, [9]): bureau 1 at one
// failure in two hours, bureau 2 at one in ten minutes. A line for each record has the record's number and what each
// bureau is told of its own campaign after it; before and after stand the calls that one bureau must not disturb the
// other with. bin/tally has bureau 1's column from examples/issw2022.sheet.
#![tactic(auto)]

use bureau_table::{Ask, Call, Place, Reply, Work};
use campaign_state::Campaign;
use campaign_verdict::Verdict;
use record_end::Outcome;
use refusal::Refusal;

// Document 003's 32 records, in ms. One that is shorter than 1,800 s ended at its first failure.
const EXPOSURES: [u64; 32] = [
    1800000, 933980, 1800000, 992510, 524140, 1217190, 48523, 1800000, 879500, 280590, 1800000,
    562350, 288416, 1800000, 858140, 445665, 1800000, 20620, 546241, 465511, 1800000, 1193350,
    258192, 942395, 1218310, 74271, 855247, 1073380, 237282, 1121510, 24568, 431727,
];

const LONGEST: u64 = 1_800_000;

// What is written: a write that fails is passed over, and so are those after it.
fn letter(out: &impl Print, v: Verdict) {
    let _ = match v {
        Verdict::Accept(_) => print!(out; "\tA"),
        Verdict::Reject(_) => print!(out; "\tR"),
        Verdict::Continue(_, _) => print!(out; "\tC"),
        Verdict::NoRecord => print!(out; "\tE"),
    };
}

fn refused(out: &impl Print, f: Refusal) {
    let number = refusal::number(f);
    let _ = print!(out; "\trefused {number}");
}

// What a bureau is told; of a record that is entered, nothing.
fn write_answer(out: &impl Print, a: Result<Reply, Refusal>) {
    match a {
        Ok(Reply::Placed(i)) => {
            let _ = print!(out; "\tplace {i}");
        }
        Ok(Reply::Entered) => {}
        Ok(Reply::Judged(v)) => letter(out, v),
        Ok(Reply::Rated(_)) => {
            let _ = print!(out; "\trates");
        }
        Ok(Reply::Freed) => {
            let _ = print!(out; "\tfree");
        }
        Err(f) => refused(out, f),
    }
}

// A call on the table.
fn asks(out: &impl Print, t: &mut [Place; 32], bureau: u64, ask: Ask) {
    let s = bureau_entries::lent(*t, Call { bureau, ask });
    write_answer(out, s.answer);
    let left = s.places;
    *t = left;
}

fn line(out: &impl Print, t: &mut [Place; 32], name: &str, bureau: u64, ask: Ask) {
    let _ = print!(out; "{name}");
    asks(out, t, bureau, ask);
    let _ = println!(out);
}

// The record of this number for both bureaus, each in its own place.
fn record(out: &impl Print, t: &mut [Place; 32], number: usize, exposure: u64) {
    let o = Outcome {
        failed: exposure < LONGEST,
        exposure,
    };
    let _ = print!(out; "{number}");
    asks(out, t, 1, Ask::On(0, Work::Enter(o)));
    asks(out, t, 2, Ask::On(1, Work::Enter(o)));
    asks(out, t, 1, Ask::On(0, Work::Judge));
    asks(out, t, 2, Ask::On(1, Work::Judge));
    let _ = println!(out);
}

fn all_records(out: &impl Print, t: &mut [Place; 32]) {
    for (k, exposure) in EXPOSURES.iter().enumerate() {
        record(out, t, k + 1, *exposure);
    }
}

// Bureau 1 takes jobs up to its sixteenth, and one more.
fn jobs(out: &impl Print, t: &mut [Place; 32]) {
    for _ in 0..17 {
        line(out, t, "1 takes", 1, Ask::Take(7_200_000));
    }
}

fn main(rt: HostRuntime) {
    let mut t = [Place {
        owner: 0,
        campaign: Campaign {
            standard: 0,
            records: 0,
            failures: 0,
            exposure: 0,
            failed: false,
        },
    }; 32];
    line(&rt, &mut t, "1 takes", 1, Ask::Take(7_200_000));
    line(&rt, &mut t, "2 takes", 2, Ask::Take(600_000));
    line(&rt, &mut t, "3 takes", 3, Ask::Take(600_000));
    line(&rt, &mut t, "2 takes at 0", 2, Ask::Take(0));
    line(
        &rt,
        &mut t,
        "1 asks for 2's verdict",
        1,
        Ask::On(1, Work::Judge),
    );
    all_records(&rt, &mut t);
    line(
        &rt,
        &mut t,
        "2 asks for 1's rates",
        2,
        Ask::On(0, Work::Rate),
    );
    line(
        &rt,
        &mut t,
        "1 gives 2's place back",
        1,
        Ask::On(1, Work::GiveBack),
    );
    line(
        &rt,
        &mut t,
        "1 gives its place back",
        1,
        Ask::On(0, Work::GiveBack),
    );
    jobs(&rt, &mut t);
    line(
        &rt,
        &mut t,
        "2 asks for its verdict",
        2,
        Ask::On(1, Work::Judge),
    );
}
