// The rate beyond the records ([14]; document 001, 3.3 and 3.4): from peaks that lie downwards, the mean time between
// failures at a level that no record need reach: estimated, the longest that is accepted by the upper ends of count and
// shape, the shortest that is rejected by the lower ones, and the letter for a standard.
#![tactic(auto)]

ghost use Rattle.std.specs.Prelude.{◌≡◌, ◌+◌, ◌-◌, ◌*◌, ◌^◌, ◌≤◌, ◌<◌};
ghost use Rattle.sample_items.specs.Limits.{within};
ghost use Rattle.logarithm.specs.Ours.{our_figure};
ghost use Rattle.peak_reach.specs.Answers.{ExtrapolatesTo, first_out, item_outside, letter_for, no_spread, reached};
ghost use Rattle.peak_reach.specs.Figures.{full_sum, longest_by, rejected_by, shortest_above, times_of};
ghost use Rattle.peak_reach.specs.Steps.{Division, Factors, Given, Judged, Ready, Within};

use refusal::Refusal;

pub const LONGEST_STANDARD: u64 = 100_000_000_000;

pub const MOST_SAMPLES: u64 = 100_000_000;

// 2 ^ 60: more than any standard times any count.
const FAR: u64 = 1_152_921_504_606_846_976;

// Times in ms: at most the estimated mean time between failures; the longest standard found to be accepted; the
// shortest found to be rejected, 0 for none.
#[derive(Clone, Copy)]
pub struct Times {
    pub estimate: u64,
    pub accepted: u64,
    pub rejected: u64,
}

#[derive(Clone, Copy)]
pub enum Letter {
    Accept,
    Reject,
    Continue,
}

// `sample_items` has the same, which is private there too: one line.
fn between(low: u64, high: u64, x: u64) -> bool
    ensures { result ≡ within low high x }
{
    (low..=high).contains(&x)
}

// The greatest f with f 2 ^ 31 at most r m 2 ^ s - less, or 2 ^ 60 - 1 where that is: r 2 ^ s in a high part and 31
// bits, each times m.
fn cut(r: u64, m: u64, s: u64, less: u64) -> u64
    requires { Factors r m × (less ≤ 1) }
    ensures { Within (r * (m * 2 ^ s) - less) result }
{
    if s >= 60 {
        return FAR - 1;
    }
    if r >= FAR >> s {
        return FAR - 1;
    }
    let x = r << s;
    (x / 2147483648) * m + ((x % 2147483648) * m + 2147483648 - less) / 2147483648 - 1
}

// 2 ^ 20 a / d: the whole part, and what is left of d.
#[derive(Clone, Copy)]
struct Divided {
    whole: u64,
    rest: u64,
}

fn quotient(a: u64, d: u64) -> Divided
    requires { (1 ≤ d) × (d ≤ 1152921504606846976) × (a < 64 * d) }
    ensures { Division 20 a d result.whole result.rest }
{
    let mut whole = a / d;
    let mut rest = a % d;
    for _ in 0..20u64 {
        if 2 * rest < d {
            whole = 2 * whole;
            rest = 2 * rest;
        } else {
            whole = 2 * whole + 1;
            rest = 2 * rest - d;
        }
    }
    Divided {
        whole: whole,
        rest: rest,
    }
}

// The longest standard q with q n at most r e ^ x for a `less` of 0, below that for 1; x = kg / (sum (1 + w)).
fn longest(kg: u64, sum: u64, w: u64, n: u64, r: u64, less: u64) -> u64
    requires { Given kg sum w n r × (kg < 64 * sum) × (less ≤ 1) }
    ensures { result ≡ longest_by kg sum w n r less }
{
    let x = quotient(1_000_000 * kg, sum * (1_000_000 + w));
    let p = exponential::down(x.whole);
    let q = cut(r, p.mantissa, p.shift, less) / n;
    truth::pick(LONGEST_STANDARD <= q, LONGEST_STANDARD, q)
}

// The shortest standard q with r e ^ x below q n, for x = kg / (sum (1 - w)); 0 where none is found.
fn shortest(kg: u64, sum: u64, w: u64, n: u64, r: u64) -> u64
    requires { Given kg sum w n r × (w < 1000000) }
    ensures { result ≡ shortest_above kg sum w n r }
{
    let d = sum * (1_000_000 - w);
    let a = 1_000_000 * kg;
    if a / d >= 64 {
        return 0;
    }
    let y = quotient(a, d);
    let x = y.whole + truth::pick(y.rest == 0, 0, 1);
    if x >= 67_108_864 {
        return 0;
    }
    let p = exponential::up(x);
    let q = cut(r, p.mantissa, p.shift, 0) / n;
    if q >= LONGEST_STANDARD {
        return 0;
    }
    q + 1
}

// The shortest standard found to be rejected, where both lower ends are above 0; else 0.
fn rejected(k: u64, level: u64, sum: u64, h: u64, w: u64, r: u64) -> u64
    requires { (2 ≤ k) × (k ≤ 4096) × (level ≤ 2097155) × (1 ≤ sum) × (sum ≤ 8589934592) × (w ≤ 2236000) × (1 ≤ r) }
    ensures { result ≡ rejected_by k level sum h w r }
{
    if truth::either(1_000_000 <= w, 1_000 * k <= h) {
        return 0;
    }
    shortest(k * level, sum, w, 1_000 * k - h, r)
}

// The three times, where nothing is refused; g is the level's logarithm.
fn three(u: u32, c: u32, k: u64, sum: u64, step: u64, samples: u64, g: u64) -> Times
    requires { Ready u c k sum step samples × (g ≡ our_figure c u) }
    ensures { result ≡ times_of u c k sum step samples }
{
    let h = root::half_width(2_236, k, samples);
    let w = root::least(4_999_696_000_000, k);
    let most = sum + 2 * (k - 1);
    let r = 1_000 * (samples * step);
    let level = truth::pick(c == u, 0, g + 2);
    Times {
        estimate: longest(k * g, most, 0, 1_000 * k, r, 0),
        accepted: longest(k * g, most, w, 1_000 * k + h, r, 1),
        rejected: rejected(k, level, sum, h, w, r),
    }
}

// The lowest of items 1, 3 and 5 that is outside its range, 0 if there is none.
fn item_outside(step: u64, level: u64, standard: u64) -> u64
    ensures { result ≡ item_outside step level standard }
{
    let fifth = truth::pick(!between(1, LONGEST_STANDARD, standard), 5, 0);
    let third = truth::pick(!between(1, 1_000_000, level), 3, fifth);
    truth::pick(!between(1, 10_000, step), 1, third)
}

// The place of the first peak that is 0, too high, or above the one before it; the list's length if there is none.
fn first_out(peaks: &[u32]) -> usize
    ensures { result ≡ first_out peaks.now }
{
    let mut before: u32 = 1_000_000;
    for i in 0..peaks.len() {
        let y = peaks[i];
        if !truth::both(1 <= y, y <= before) {
            return i;
        }
        before = y;
    }
    peaks.len()
}

fn no_spread(k: u64, sum: u64, g: u64) -> bool
    requires { (2 ≤ k) × (k ≤ 4096) × (sum ≤ 8589934592) × (g < 2097152) }
    ensures { result ≡ no_spread k sum g }
{
    truth::either(sum == 0, 64 * (sum + 2 * (k - 1)) <= k * g)
}

fn letter_for(standard: u64, t: Times) -> Letter
    ensures { result ≡ letter_for standard t }
{
    if standard <= t.accepted {
        return Letter::Accept;
    }
    if truth::both(1 <= t.rejected, t.rejected <= standard) {
        return Letter::Reject;
    }
    Letter::Continue
}

// The three times with the verdict's letter, or the refusal.
pub type Extrapolated = Result<(Times, Letter), Refusal>;

// What a list comes to that 1, 16 and 17 are passed for.
fn reach(peaks: &[u32], k: u64, level: u64, step: u64, samples: u64, standard: u64) -> Extrapolated
    requires { Judged peaks.now k level step }
    ensures { result ≡ reached peaks.now k level step samples standard }
{
    let last = (k - 1) as usize;
    let u = peaks[last];
    if !between(k, MOST_SAMPLES, samples) {
        return Err(Refusal::TimedSamples);
    }
    let c = level as u32;
    if c < u {
        return Err(Refusal::LowLevel(u as u64));
    }
    let g = logarithm::log2(c, u);
    let sum = peak_tail::hill_sum(peaks, k);
    if no_spread(k, sum, g) {
        return Err(Refusal::NoSpread);
    }
    let t = three(u, c, k, sum, step, samples, g);
    Ok((t, letter_for(standard, t)))
}

// The times beyond the records and the letter for a standard, from peaks that lie downwards; or refusal 1 (items 1, 3
// and 5), 16, 17 with the first place at fault, 19, 20 with the k-th peak, 21.
pub fn extrapolate(
    peaks: &[u32],
    k: u64,
    level: u64,
    step: u64,
    samples: u64,
    standard: u64,
) -> Extrapolated
    ensures { ExtrapolatesTo peaks.now k level step samples standard result }
{
    let item = item_outside(step, level, standard);
    if item != 0 {
        return Err(Refusal::Item(item));
    }
    let n = peaks.len();
    if peak_tail::tail_outside(n as u64, k) {
        return Err(Refusal::Tail);
    }
    let out = first_out(peaks);
    if out < n {
        return Err(Refusal::Peak(out as u64));
    }
    reach(peaks, k, level, step, samples, standard)
}
