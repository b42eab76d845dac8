// Envelope peaks of one channel (document 02, request 11): runs of one sign give peaks, stretches of high peaks keep
// their largest, and of kept peaks close in time the largest is handed out. The record is gone over from run to run:
// once for the number of peaks and their sum, which say what is high; once for the places needed, since refusal 7 is
// judged before anything is written; once to write. A pass holds the open stretch and the open chain, and needs no
// room.
#![tactic(auto)]

ghost use Rattle.std.specs.Prelude.{◌≡◌, map, ℕ, ◌+◌, ◌*◌, ◌/◌, ◌<◌, ◌≤◌, length};
ghost use Rattle.std.proofs.lemmas.List.Edits.{sets};
ghost use Rattle.peak_groups.specs.Runs.{peaks, peak_at};
ghost use Rattle.peak_groups.specs.Peaks.{sum, kept, close};
ghost use Rattle.peak_groups.specs.Groups.{tops};
ghost use Rattle.peak_machine.specs.Step.{size_of, moment_of, stepped, Fits};
ghost use Rattle.peak_envelope.specs.Step.{chosen, added, noting};
ghost use Rattle.peak_envelope.specs.Answers.{HandsOut, FindsTo, unlevelled};
ghost use Rattle.record_whole.specs.Tests.{Fitting};

use peak_groups::{Group, Peak, Run};
use peak_machine::Envelope;
use refusal::Refusal;
use sample_channels::Levels;
use sample_items::Items;

// How many peaks there are, and their sum.
#[derive(Clone, Copy)]
struct Totals {
    number: u32,
    sum: u64,
}

// The peak of a run that starts at timed sample i.
fn peak(step: u64, i: usize, r: Run) -> Peak
    requires { i + r.place ≤ 10000000 / step }
    ensures { result ≡ peak_at step (i * step) r }
{
    Peak {
        below: r.below,
        size: r.size,
        time: ((i + r.place) as u64 * step) as u32,
    }
}

// Puts the largest of the open chain into its place, if the chain is closed where there are `opened`.
fn hand(g: Group, opened: u64, sizes: &mut [u32], times: &mut [u32])
    requires { g.opened ≤ 20000000 }
    ensures { (sizes.new ≡ noting g opened g.best.size sizes.old)
        × (times.new ≡ noting g opened g.best.time times.old) }
{
    if !truth::both(0 < g.opened, g.opened != opened) {
        return;
    }
    let k = (g.opened - 1) as usize;
    let best = g.best;
    peak_machine::place(sizes, k, best.size);
    peak_machine::place(times, k, best.time);
}

// The pass with the peak p, which hands out the chain that it closes, if it closes one.
fn onward(
    n: u32,
    s: u64,
    decorrelation: u32,
    e: Envelope,
    p: Peak,
    sizes: &mut [u32],
    times: &mut [u32],
) -> Envelope
    requires { Fits 19999999 e }
    ensures { (result ≡ stepped n s decorrelation e p)
        × (sizes.new ≡ noting e.chains result.chains.opened e.chains.best.size sizes.old)
        × (times.new ≡ noting e.chains result.chains.opened e.chains.best.time times.old) }
{
    let f = peak_machine::advance(n, s, decorrelation, e, p);
    let chains = e.chains;
    let after = f.chains;
    hand(chains, after.opened, sizes, times);
    f
}

// The totals with a peak of that size.
fn add(t: Totals, size: u32) -> Totals
    requires { (t.number < 20000000) × (t.sum ≤ 20000000 * 4294967295) }
    ensures { (result ≡ added t size) × (result.sum ≤ t.sum + 4294967295) }
{
    Totals {
        number: t.number + 1,
        sum: t.sum + size as u64,
    }
}

// The first pass over the timed samples: from run to run, without the first and the last.
fn count(timed: &[i32]) -> Totals
    requires { length timed.now ≤ 10000001 }
    ensures { ((D : ℕ) → result.number ≡ length (peaks D timed.now))
        × ((D : ℕ) → result.sum ≡ sum (peaks D timed.now)) }
{
    let mut total = Totals { number: 0, sum: 0 };
    let mut i = peak_groups::second_run(timed);
    let mut next = peak_groups::first_run(&timed[i..]);
    // No range to go over: a turn's step is the run that `first_run` found.
    while i + next.length < timed.len() {
        total = add(total, next.size);
        i += next.length;
        next = peak_groups::first_run(&timed[i..]);
    }
    total
}

// A later pass: hands out the chains' largest, into the places that there are, and answers their number.
fn pass(
    step: u64,
    n: u32,
    s: u64,
    decorrelation: u32,
    timed: &[i32],
    sizes: &mut [u32],
    times: &mut [u32],
) -> u64
    requires { length timed.now ≤ 1 + 10000000 / step }
    ensures { (result ≡ length (chosen n s step decorrelation timed.now))
        × (sizes.new
        ≡ sets sizes.old 0 (map size_of (chosen n s step decorrelation timed.now)))
        × (times.new
        ≡ sets times.old 0 (map moment_of (chosen n s step decorrelation timed.now))) }
{
    let mut e = peak_machine::fresh();
    let mut i = peak_groups::second_run(timed);
    let mut run = peak_groups::first_run(&timed[i..]);
    // As in `count`, a turn's step is the run that was found.
    while i + run.length < timed.len() {
        e = onward(n, s, decorrelation, e, peak(step, i, run), sizes, times);
        i += run.length;
        run = peak_groups::first_run(&timed[i..]);
    }
    let chains = e.chains;
    hand(chains, chains.opened + 1, sizes, times);
    chains.opened
}

// The number of peaks handed out, which stand in the slices then; or refusal 7 with the places needed, and the slices
// as they stood.
fn hand_out(
    step: u64,
    decorrelation: u64,
    timed: &[i32],
    sizes: &mut [u32],
    times: &mut [u32],
) -> Result<u64, Refusal>
    requires { (length timed.now ≤ 1 + 10000000 / step) × (decorrelation ≤ 10000000) }
    ensures { HandsOut (tops (close decorrelation) (kept (peaks step timed.now)))
        sizes.old times.old result sizes.new times.new }
{
    let all = count(timed);
    let number = all.number;
    let sum = all.sum;
    let gap = decorrelation as u32;
    let mut scrap = [0; 1];
    let mut spare = [0; 1];
    let needed = pass(step, number, sum, gap, timed, &mut scrap, &mut spare);
    if peak_groups::short(sizes.len(), times.len(), needed) {
        return Err(Refusal::Room(needed));
    }
    pass(step, number, sum, gap, timed, sizes, times);
    Ok(needed)
}

// The same of a record whose items and length are right, as `unlevelled` has them; 2 goes before 7.
fn find_fitting(
    step: u64,
    ramp: u64,
    decorrelation: u64,
    samples: &[i32],
    sizes: &mut [u32],
    times: &mut [u32],
) -> Result<u64, Refusal>
    requires { Fitting (unlevelled step ramp decorrelation) (length samples.now) (length samples.now) }
    ensures { FindsTo step ramp decorrelation samples.now sizes.old times.old
        result sizes.new times.new }
{
    let bad = sample_range::first_bad(samples);
    if bad < samples.len() {
        return Err(Refusal::Sample(bad as u64));
    }
    let from = ramp as usize;
    hand_out(step, decorrelation, &samples[from..], sizes, times)
}

// The envelope peaks of a whole record: their magnitudes and times, in order, from the start of the two slices, whose
// rest stays, and their number; or refusal 1 (items 1, 2 and 4: 1 stands for the levels, which are not asked for), 2,
// 3, 4, or 7 with the places needed, and the slices as they stood.
pub fn find(
    step: u64,
    ramp: u64,
    decorrelation: u64,
    samples: &[i32],
    sizes: &mut [u32],
    times: &mut [u32],
) -> Result<u64, Refusal>
    ensures { FindsTo step ramp decorrelation samples.now sizes.old times.old
        result sizes.new times.new }
{
    let items = Items {
        step,
        ramp,
        levels: Levels {
            roll: 1,
            acceleration: 1,
        },
        decorrelation,
    };
    record_whole::judge(items, samples, samples)?;
    find_fitting(step, ramp, decorrelation, samples, sizes, times)
}
