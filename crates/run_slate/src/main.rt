// Document 01's marked cases A to H and the other cases that it names for a record, and cases of both channels, run
// through the code: a row of the table for each, and a line for each row. demands_slate has A to H of the
// definitions.
#![tactic(auto)]

use record_state::Record;
use refusal::Refusal;
use sample_channels::{Levels, Moment};
use sample_items::Items;

// Of each row: step, ramp, the roll's level, decorrelation time; how often the first piece is fed, its samples, and
// all samples of the row, which the second piece ends; the places lent for the times; the roll's row of SAMPLES; the
// acceleration's level and its row, of which row 6 has zeros for a one-channel job. A row is an array and no struct: 11
// names in each of 44 would be no plainer.
const ROWS: [[u64; 11]; 44] = [
    // A to H
    [500, 0, 40000, 2000, 1, 7, 7, 3, 0, 9810, 6],
    [500, 0, 40000, 2001, 1, 7, 7, 3, 0, 9810, 6],
    [500, 0, 40000, 0, 1, 7, 7, 3, 0, 9810, 6],
    [500, 0, 40000, 2000, 1, 2, 2, 3, 1, 9810, 6],
    [500, 0, 40000, 2000, 1, 2, 2, 3, 2, 9810, 6],
    [500, 0, 40000, 2000, 1, 3, 3, 3, 3, 9810, 6],
    [500, 0, 40000, 2000, 1, 3, 3, 3, 4, 9810, 6],
    [500, 2, 40000, 2000, 1, 5, 5, 3, 5, 9810, 6],
    // no sample, one, two; cases A and C into one place
    [500, 0, 40000, 2000, 1, 0, 0, 3, 6, 9810, 6],
    [500, 0, 40000, 2000, 1, 1, 1, 3, 6, 9810, 6],
    [500, 0, 40000, 2000, 1, 2, 2, 3, 6, 9810, 6],
    [500, 0, 40000, 2000, 1, 7, 7, 1, 0, 9810, 6],
    [500, 0, 40000, 0, 1, 7, 7, 1, 0, 9810, 6],
    // the ends of an i32, the end of the range and one past it
    [500, 0, 40000, 2000, 1, 2, 2, 3, 7, 9810, 6],
    [500, 0, 40000, 2000, 1, 2, 2, 3, 8, 9810, 6],
    [500, 0, 40000, 2000, 1, 2, 2, 3, 9, 9810, 6],
    [500, 0, 40000, 2000, 1, 2, 2, 3, 10, 9810, 6],
    // case A cut anywhere; a bad piece after a good one
    [500, 0, 40000, 2000, 1, 0, 7, 3, 0, 9810, 6],
    [500, 0, 40000, 2000, 1, 1, 7, 3, 0, 9810, 6],
    [500, 0, 40000, 2000, 1, 2, 7, 3, 0, 9810, 6],
    [500, 0, 40000, 2000, 1, 3, 7, 3, 0, 9810, 6],
    [500, 0, 40000, 2000, 1, 4, 7, 3, 0, 9810, 6],
    [500, 0, 40000, 2000, 1, 5, 7, 3, 0, 9810, 6],
    [500, 0, 40000, 2000, 1, 6, 7, 3, 0, 9810, 6],
    [500, 0, 40000, 2000, 1, 2, 5, 3, 11, 9810, 6],
    // n at refusal 3's bound and one past it, for the longest step and the shortest; a bad sample there
    [10000, 0, 40000, 0, 200, 5, 6, 3, 6, 9810, 6],
    [10000, 0, 40000, 0, 200, 5, 7, 3, 6, 9810, 6],
    [1, 1000000, 40000, 0, 2200000, 5, 6, 3, 6, 9810, 6],
    [1, 1000000, 40000, 0, 2200000, 5, 7, 3, 6, 9810, 6],
    [1, 1000000, 40000, 0, 1833333, 6, 7, 3, 12, 9810, 6],
    // items at the ends of their ranges and past them
    [1, 0, 1, 0, 0, 0, 0, 3, 0, 9810, 6],
    [0, 1000001, 0, 10000001, 0, 0, 0, 3, 0, 9810, 6],
    [1, 1000001, 0, 10000001, 0, 0, 0, 3, 0, 9810, 6],
    [1, 0, 1000001, 10000001, 0, 0, 0, 3, 0, 9810, 6],
    [1, 0, 1, 10000001, 0, 0, 0, 3, 0, 9810, 6],
    // the acceleration alone, at its level; both at once, one after the other, one handed over to the other
    [500, 0, 40000, 2000, 1, 2, 2, 3, 6, 9810, 13],
    [500, 0, 40000, 2000, 1, 2, 2, 3, 1, 9810, 14],
    [500, 0, 40000, 2000, 1, 1, 2, 3, 2, 9810, 13],
    [500, 0, 40000, 2000, 1, 1, 2, 3, 3, 9810, 13],
    [500, 0, 40000, 0, 1, 3, 7, 3, 0, 9810, 15],
    // a bad sample in the acceleration, in both at one place, earlier in the acceleration; its level past its range
    [500, 0, 40000, 2000, 1, 0, 2, 3, 6, 9810, 8],
    [500, 0, 40000, 2000, 1, 0, 2, 3, 10, 9810, 8],
    [500, 0, 40000, 2000, 1, 2, 5, 3, 11, 9810, 16],
    [1, 0, 1, 0, 0, 0, 0, 3, 0, 1000001, 6],
];

const SAMPLES: [[i32; 7]; 17] = [
    [0, 41000, 39000, 41000, 39000, 41000, 0],
    [40000, 40000, 0, 0, 0, 0, 0],
    [40000, 40001, 0, 0, 0, 0, 0],
    [41000, 0, -41000, 0, 0, 0, 0],
    [0, 41000, -41000, 0, 0, 0, 0],
    [0, 41000, 41000, 0, 41000, 0, 0],
    [0, 0, 0, 0, 0, 0, 0],
    [0, -2147483648, 0, 0, 0, 0, 0],
    [0, 2147483647, 0, 0, 0, 0, 0],
    [0, -1000000, 0, 0, 0, 0, 0],
    [0, -1000001, 0, 0, 0, 0, 0],
    [0, 41000, 39000, 2000000, -2000000, 0, 0],
    [0, 0, 0, 0, 0, 0, 1000001],
    [0, 9811, 0, 0, 0, 0, 0],
    [0, -9810, 0, 0, 0, 0, 0],
    [0, 0, 9811, 0, -9811, 0, 9811],
    [0, 0, -1000001, 0, 0, 0, 0],
];

// What is written: a write that fails is passed over, and so are those after it.
fn refused(out: &impl Print, f: Refusal) {
    let number = refusal::number(f);
    let with = refusal::carried(f);
    let _ = print!(out; " refused {number} with {with}");
    let channel = refusal::channel(f);
    if channel != 0 {
        let _ = print!(out; " channel {channel}");
    }
}

fn figures(out: &impl Print, r: Record) {
    let _ = print!(out; " n {} crossings {} groups {}", r.n, r.crossings, r.groups);
    let _ = print!(out; " largest set {} first {}", r.largest, r.first);
    let _ = print!(out;
        " last chosen {} last crossing {}",
        r.last_chosen, r.last_crossing
    );
}

fn answer(out: &impl Print, a: Result<Record, Refusal>) {
    match a {
        Ok(r) => figures(out, r),
        Err(f) => refused(out, f),
    }
}

// What a piece gives after an answer; a refusal stays.
fn then(a: Result<Record, Refusal>, roll: &[i32], acceleration: &[i32]) -> Result<Record, Refusal> {
    record_feed::feed(a?, roll, acceleration)
}

// The same piece so many times over.
fn again(
    a: Result<Record, Refusal>,
    roll: &[i32],
    acceleration: &[i32],
    times: u64,
) -> Result<Record, Refusal> {
    let mut b = a;
    for _ in 0..times {
        b = then(b, roll, acceleration);
    }
    b
}

fn times(out: &impl Print, slice: &[u32]) {
    for time in slice {
        let _ = print!(out; " {time}");
    }
}

fn items(row: [u64; 11]) -> Items {
    Items {
        step: row[0],
        ramp: row[1],
        levels: Levels {
            roll: row[2],
            acceleration: row[9],
        },
        decorrelation: row[3],
    }
}

// The record in two pieces.
fn fed(out: &impl Print, row: [u64; 11], roll: &[i32], acceleration: &[i32]) {
    let cut = row[5] as usize;
    if cut <= roll.len() && cut <= acceleration.len() {
        let opened = record_state::open(items(row));
        let first = again(opened, &roll[..cut], &acceleration[..cut], row[4]);
        answer(out, then(first, &roll[cut..], &acceleration[cut..]));
    }
}

// Its counted times, listed into the lent places, and what these then hold.
fn listed(out: &impl Print, row: [u64; 11], roll: &[i32], acceleration: &[i32], slice: &mut [u32]) {
    let l = record_list::list(items(row), roll, acceleration, slice);
    match l {
        Ok(k) => {
            let _ = print!(out; " times {k}");
        }
        Err(f) => refused(out, f),
    }
    times(out, slice);
}

fn case(out: &impl Print, row: [u64; 11], roll: &[i32], acceleration: &[i32]) {
    fed(out, row, roll, acceleration);
    let mut slice = [7u32; 3];
    let mut place = [7u32; 1];
    if row[7] == 1 {
        listed(out, row, roll, acceleration, &mut place);
    } else {
        listed(out, row, roll, acceleration, &mut slice);
    }
    let levels = items(row).levels;
    let found = crossing_search::first_crossing(roll, acceleration, row[1], levels);
    let _ = print!(out; " found {found}");
}

// A case of the first samples.
fn first_of(out: &impl Print, row: [u64; 11], roll: &[i32], acceleration: &[i32]) {
    let count = row[6] as usize;
    if count <= roll.len() && count <= acceleration.len() {
        case(out, row, &roll[..count], &acceleration[..count]);
    }
}

fn samples_of(i: u64) -> [i32; 7] {
    SAMPLES.get(i as usize).copied().unwrap_or([0; 7])
}

fn rows(out: &impl Print) {
    for (i, row) in ROWS.iter().enumerate() {
        let roll = samples_of(row[8]);
        let acceleration = samples_of(row[10]);
        let _ = print!(out; "row {}", i + 1);
        first_of(out, *row, &roll, &acceleration);
        let _ = println!(out);
    }
}

// Seven crossings in two groups, of which four are pairwise apart; cut in the first group.
fn seven(out: &impl Print) {
    let row = [500u64, 0, 40_000, 2000, 1, 6, 17, 3, 0, 9810, 6];
    let samples = [
        0i32, 41000, 0, -41000, 0, 41000, 0, -41000, 0, 0, 0, 0, 41000, 0, -41000, 0, 41000,
    ];
    let _ = print!(out; "seven");
    let zeros = [0i32; 17];
    first_of(out, row, &samples, &zeros);
    let _ = println!(out);
}

// A first failure without a crossing, which no samples lead to.
fn broken(out: &impl Print) {
    let r = Record {
        items: Items {
            step: 500,
            ramp: 0,
            levels: Levels {
                roll: 40_000,
                acceleration: 9810,
            },
            decorrelation: 2000,
        },
        n: 3,
        last: Moment {
            roll: 0,
            acceleration: 0,
        },
        crossings: 0,
        largest: 0,
        first: 2,
        last_chosen: 2,
        last_crossing: 2,
        groups: 0,
    };
    let _ = print!(out; "broken");
    answer(out, record_feed::feed(r, &[2000000i32], &[0i32]));
    let _ = println!(out);
}

// Slices of unequal lengths, which go before a bad sample; in listing after the items.
fn unequal(out: &impl Print) {
    let roll = [2000000i32; 3];
    let zeros = [0i32; 2];
    let row = [500u64, 0, 40_000, 2000, 0, 0, 0, 1, 0, 9810, 6];
    let _ = print!(out; "unequal");
    answer(out, then(record_state::open(items(row)), &roll, &zeros));
    let mut place = [7u32; 1];
    listed(out, row, &roll, &zeros, &mut place);
    let _ = println!(out);
}

fn main(rt: HostRuntime) {
    rows(&rt);
    seven(&rt);
    broken(&rt);
    unequal(&rt);
}
