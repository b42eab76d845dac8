// Document 003's first procedure: Table 1's intervals between failures, read down its columns and cut into records of
// 1,800 s, entered one by one. After each record a line as in Table 2: M, N, N*, T in ms, the estimate, the upper and
// the lower rate in 1/s. The rates are the f64s that `rates` answers, printed to four digits.
#![tactic(auto)]

use campaign_state::Campaign;
use campaign_verdict::Rates;
use record_end::Outcome;

// Table 1, in ms.
const INTERVALS: [u64; 25] = [
    2733980, 2792510, 524140, 1217190, 48523, 2679500, 280590, 2362350, 288416, 2658140, 445665,
    1820620, 546241, 465511, 2993350, 258192, 942395, 1218310, 74271, 855247, 1073380, 237282,
    1121510, 24568, 431727,
];

const LONGEST: u64 = 1_800_000;

// The standard does not matter to the rates.
const STANDARD: u64 = 7_200_000;

// A rate as Table 2 prints it, with `none` for 0. A write that fails is passed over, and so are those after it.
fn write_rate(out: &impl Print, rate: f64, none: &str) {
    let _ = if rate > 0.0 {
        print!(out; "\t{rate:.3e}")
    } else {
        print!(out; "\t{none}")
    };
}

fn write_rates(out: &impl Print, rates: Rates) {
    write_rate(out, rates.estimate, "0.0");
    write_rate(out, rates.upper, "0.0");
    write_rate(out, rates.lower, "-");
}

fn write_line(out: &impl Print, c: Campaign) {
    let Ok(censored) = campaign_verdict::censored(c) else {
        return;
    };
    let Ok(Some(rates)) = campaign_verdict::rate(c) else {
        return;
    };
    let _ = print!(out; "{}\t{}\t{censored}\t{}", c.records, c.failures, c.exposure);
    write_rates(out, rates);
    let _ = println!(out);
}

// The campaign with the record entered and its line written; unchanged if it is refused.
fn enter(out: &impl Print, c: Campaign, failed: bool, exposure: u64) -> Campaign {
    let o = Outcome { failed, exposure };
    let Ok(next) = c.enter(o) else {
        return c;
    };
    write_line(out, next);
    next
}

// An interval between failures: full records, and the one in which the failure came.
fn enter_interval(out: &impl Print, c: Campaign, interval: u64) -> Campaign {
    let mut now = c;
    let mut left = interval;
    // `for _ in 0..(interval - 1) / LONGEST` would say the same, and say less what is left.
    while LONGEST < left {
        now = enter(out, now, false, LONGEST);
        left -= LONGEST;
    }
    enter(out, now, true, left)
}

fn main(rt: HostRuntime) {
    let Ok(empty) = campaign_state::open(STANDARD) else {
        return;
    };
    let mut c = empty;
    for interval in INTERVALS {
        c = enter_interval(&rt, c, interval);
    }
}
