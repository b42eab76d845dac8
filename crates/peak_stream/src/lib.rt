// Envelope peaks of samples handed over in pieces, cut anywhere, in two passes that hold no samples (document 02,
// request 11). The first finds the number and the sum of the peaks, which say what is high; the second hands out the
// largest of each chain as it closes. Samples are the timed ones: the ramp's are not handed over, and that all are in
// range is the caller's to look at. A state goes in by value and comes back in the answer, so that a refusal leaves
// the caller's as it stood.
#![tactic(auto)]

ghost use Rattle.std.specs.Prelude.{◌≡◌, true, cond, ◌+◌, ◌*◌, ◌≤◌, ◌<◌, length, set, nat_abs};
ghost use mathlib.Core.List.{foldl, map};
ghost use Rattle.std.proofs.lemmas.List.Edits.{sets};
ghost use Rattle.sample_items.specs.Limits.{most_in_range};
ghost use Rattle.peak_groups.specs.Runs.{same, side, point};
ghost use Rattle.peak_groups.specs.Machine.{closed};
ghost use Rattle.peak_machine.specs.Step.{size_of, moment_of, Fits};
ghost use Rattle.peak_stream.specs.Hands.{begun, ready, moved, closed_by, last_of, HandsOver};
ghost use Rattle.peak_stream.specs.Reading.{fresh, here, read, closes, readable};
ghost use Rattle.peak_stream.specs.Survey.{started, surveyed, sound, taken};

use peak_groups::{Group, Peak};
use peak_machine::Envelope;
use refusal::Refusal;

// Runs of one sign: the largest sample of the open one, the step in ms, how many timed samples came, and how many runs
// were opened.
#[derive(Clone, Copy)]
pub struct Reading {
    pub best: Peak,
    pub step: u32,
    pub n: u32,
    pub opened: u32,
}

// The first pass: the number and the sum of the peaks so far, without the open run's.
#[derive(Clone, Copy)]
pub struct Surveying {
    pub reading: Reading,
    pub number: u32,
    pub sum: u64,
}

// `a == b` in its place: the proof of `read` did not close.
fn same(a: bool, b: bool) -> bool
    ensures { result ≡ same a b }
{
    if a { b } else { !b }
}

// The sample x at t ms, after a run on the side s.
fn point(s: bool, t: u32, x: i32) -> Peak
    ensures { result ≡ point s t x }
{
    let size = sample_size::magnitude(x);
    if size == 0 {
        return Peak {
            below: s,
            size,
            time: t,
        };
    }
    Peak {
        below: x < 0,
        size,
        time: t,
    }
}

// One sample more.
fn read(r: Reading, x: i32) -> Reading
    requires { (r.n < most_in_range r.step 0) × (r.opened ≤ r.n) }
    ensures { result ≡ read r x }
{
    let best = r.best;
    let p = point(best.below, r.n * r.step, x);
    if truth::both(r.opened == 0, p.size == 0) {
        return Reading {
            best,
            step: r.step,
            n: r.n + 1,
            opened: r.opened,
        };
    }
    if truth::both(0 < r.opened, same(best.below, p.below)) {
        return Reading {
            best: peak_groups::larger(best, p),
            step: r.step,
            n: r.n + 1,
            opened: r.opened,
        };
    }
    Reading {
        best: p,
        step: r.step,
        n: r.n + 1,
        opened: r.opened + 1,
    }
}

// Whether a run that is not the first was closed from r to s.
fn closes(r: Reading, s: Reading) -> bool
    ensures { result ≡ closes r s }
{
    truth::both(1 < r.opened, r.opened != s.opened)
}

// No timed samples yet.
fn fresh(step: u32) -> Reading
    ensures { result ≡ fresh step }
{
    Reading {
        best: Peak {
            below: false,
            size: 0,
            time: 0,
        },
        step,
        n: 0,
        opened: 0,
    }
}

// The first pass before the first timed sample; or refusal 1 with item 1.
pub fn survey(step: u64) -> Result<Surveying, Refusal>
    ensures { result ≡ started step }
{
    if truth::both(1 <= step, step <= sample_items::LONGEST_STEP) {
        let reading = fresh(step as u32);
        return Ok(Surveying {
            reading,
            number: 0,
            sum: 0,
        });
    }
    Err(Refusal::Item(1))
}

// Whether a reading keeps its relations.
fn readable(r: Reading) -> bool
    ensures { result ≡ readable r }
{
    truth::both(
        r.n as u64 <= sample_items::most_samples(r.step as u64, 0),
        r.opened <= r.n,
    )
}

// Whether a first pass keeps the relations for refusal 8.
pub fn sound(s: Surveying) -> bool
    ensures { result ≡ sound s }
{
    let r = s.reading;
    truth::both(
        readable(r),
        truth::both(s.number <= r.n, s.sum <= r.n as u64 * 4_294_967_295),
    )
}

// The first pass with one sample more.
fn add(s: Surveying, x: i32) -> Surveying
    requires { (s.reading.n < most_in_range s.reading.step 0)
        × (s.reading.opened ≤ s.reading.n)
        × (s.number ≤ s.reading.n)
        × (s.sum ≤ s.reading.n * 4294967295) }
    ensures { (result ≡ surveyed s x) × (result.sum ≤ s.sum + 4294967295) }
{
    let r = s.reading;
    let next = read(r, x);
    if closes(r, next) {
        let best = r.best;
        return Surveying {
            reading: next,
            number: s.number + 1,
            sum: s.sum + best.size as u64,
        };
    }
    Surveying {
        reading: next,
        number: s.number,
        sum: s.sum,
    }
}

// The first pass with all samples of a piece.
fn along(s: Surveying, samples: &[i32]) -> Surveying
    requires { (sound s ≡ true) × (s.reading.n + length samples.now ≤ most_in_range s.reading.step 0) }
    ensures { result ≡ foldl surveyed s samples.now }
{
    let mut at = s;
    for x in samples {
        at = add(at, *x);
    }
    at
}

// The first pass with a piece more; or refusal 8 for the state, or 3 for a piece that makes the record too long.
pub fn take(s: Surveying, samples: &[i32]) -> Result<Surveying, Refusal>
    ensures { result ≡ taken s samples.now }
{
    if !sound(s) {
        return Err(Refusal::BrokenState);
    }
    let r = s.reading;
    let most = sample_items::most_samples(r.step as u64, 0);
    if most < r.n as u64 + samples.len() as u64 {
        return Err(Refusal::TooLong);
    }
    Ok(along(s, samples))
}

// The second pass: the runs, the stretches and the chains, and the decorrelation time, the number and the sum by which
// they are judged.
#[derive(Clone, Copy)]
pub struct Handing {
    pub reading: Reading,
    pub envelope: Envelope,
    pub decorrelation: u32,
    pub number: u32,
    pub sum: u64,
}

// Whether a second pass keeps the relations for refusal 8.
pub fn ready(h: Handing) -> bool
    ensures { result ≡ ready h }
{
    let r = h.reading;
    let e = h.envelope;
    let stretches = e.stretches;
    let chains = e.chains;
    truth::both(
        readable(r),
        truth::both(stretches.opened <= r.n as u64, chains.opened <= r.n as u64),
    )
}

// The second pass with one sample more.
fn onward(h: Handing, x: i32) -> Handing
    requires { (h.reading.n < most_in_range h.reading.step 0)
        × (h.reading.opened ≤ h.reading.n)
        × Fits h.reading.n h.envelope }
    ensures { result ≡ moved h x }
{
    let r = h.reading;
    let e = h.envelope;
    let next = read(r, x);
    if closes(r, next) {
        let best = r.best;
        let on = peak_machine::advance(h.number, h.sum, h.decorrelation, e, best);
        return Handing {
            reading: next,
            envelope: on,
            decorrelation: h.decorrelation,
            number: h.number,
            sum: h.sum,
        };
    }
    Handing {
        reading: next,
        envelope: e,
        decorrelation: h.decorrelation,
        number: h.number,
        sum: h.sum,
    }
}

// Puts the largest of the chain g into place k, if it is closed where there are `opened`; answers the next place.
fn put(g: Group, opened: u64, k: usize, sizes: &mut [u32], times: &mut [u32]) -> usize
    requires { k ≤ 20000000 }
    ensures { (result ≡ cond (closed g opened) (k + 1) k)
        × (sizes.new
        ≡ cond (closed g opened) (set sizes.old k g.best.size) sizes.old)
        × (times.new
        ≡ cond (closed g opened) (set times.old k g.best.time) times.old) }
{
    if !truth::both(0 < g.opened, g.opened != opened) {
        return k;
    }
    let best = g.best;
    peak_machine::place(sizes, k, best.size);
    peak_machine::place(times, k, best.time);
    k + 1
}

// A piece gone through: the pass after it, and how many peaks it closed.
#[derive(Clone, Copy)]
struct Gone {
    state: Handing,
    peaks: usize,
}

// The second pass with all samples of a piece.
fn through(h: Handing, samples: &[i32], sizes: &mut [u32], times: &mut [u32]) -> Gone
    requires { (ready h ≡ true) × (h.reading.n + length samples.now ≤ most_in_range h.reading.step 0) }
    ensures { (result.state ≡ foldl moved h samples.now)
        × (result.peaks ≡ length (closed_by h samples.now))
        × (sizes.new ≡ sets sizes.old 0 (map size_of (closed_by h samples.now)))
        × (times.new ≡ sets times.old 0 (map moment_of (closed_by h samples.now))) }
{
    let mut at = h;
    let mut k = 0;
    for x in samples {
        let next = onward(at, *x);
        let earlier = at.envelope;
        let later = next.envelope;
        let after = later.chains;
        k = put(earlier.chains, after.opened, k, sizes, times);
        at = next;
    }
    Gone {
        state: at,
        peaks: k,
    }
}

// The second pass after a piece and how many peaks it handed out, or the refusal.
pub type Handed = Result<(Handing, u64), Refusal>;

// The second pass with a piece more, and how many peaks it closed, which stand in the slices then; or refusal 8 for the
// state, 3 for a piece that makes the record too long, 7 where a slice has fewer places than the piece has samples, and
// the slices as they stood.
pub fn hand_over(h: Handing, samples: &[i32], sizes: &mut [u32], times: &mut [u32]) -> Handed
    ensures { HandsOver h samples.now sizes.old times.old result
        sizes.new times.new }
{
    if !ready(h) {
        return Err(Refusal::BrokenState);
    }
    let r = h.reading;
    if sample_items::most_samples(r.step as u64, 0) < r.n as u64 + samples.len() as u64 {
        return Err(Refusal::TooLong);
    }
    if peak_groups::short(sizes.len(), times.len(), samples.len() as u64) {
        return Err(Refusal::Room(samples.len() as u64));
    }
    let gone = through(h, samples, sizes, times);
    let state = gone.state;
    Ok((state, gone.peaks as u64))
}

// The second pass before the first timed sample, with the number and the sum that the first pass found; or refusal 1
// with item 1 or 4.
pub fn begin(step: u64, decorrelation: u64, number: u32, sum: u64) -> Handed
    ensures { result ≡ begun step decorrelation number sum }
{
    if !truth::both(1 <= step, step <= sample_items::LONGEST_STEP) {
        return Err(Refusal::Item(1));
    }
    if !truth::both(
        0 <= decorrelation,
        decorrelation <= sample_items::LONGEST_DECORRELATION,
    ) {
        return Err(Refusal::Item(4));
    }
    let reading = fresh(step as u32);
    let envelope = peak_machine::fresh();
    Ok((
        Handing {
            reading,
            envelope,
            decorrelation: decorrelation as u32,
            number,
            sum,
        },
        0,
    ))
}

// What the end of the samples hands out: the largest of the open chain, if there is one.
pub fn finish(h: Handing) -> Option<Peak>
    ensures { result ≡ last_of h }
{
    let e = h.envelope;
    let chains = e.chains;
    if 0 < chains.opened {
        let best = chains.best;
        return Some(best);
    }
    None
}
