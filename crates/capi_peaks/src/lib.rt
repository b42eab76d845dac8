// Envelope peaks of a record that comes in pieces, for C: two passes over its samples, each a state in a lent array,
// ten numbers for the first and twenty-four for the second. Each function answers 0 or the refusal number and writes
// what goes with it to `carried`; a refusal leaves everything else that was lent as it stood. Any numbers are an
// answer, 8 where they are no pass. That samples are in range is judged here, and the ramp's are left out here:
// `peak_stream` takes the timed ones.
#![tactic(auto)]

ghost use Rattle.std.specs.Prelude.{◌≡◌, true, map, ◌+◌, ◌-◌, ◌≤◌, min, length, drop};
ghost use Rattle.capi.specs.Numbers.{number_at};
ghost use Rattle.peak_machine.specs.Step.{size_of, moment_of};
ghost use Rattle.peak_stream.specs.Hands.{closed_by, noted};
ghost use Rattle.capi.specs.Told.{told};
ghost use Rattle.capi_peaks.specs.Numbers.{peak_at, peak_fits, group_at, group_fits, reading_at, reading_fits};
ghost use Rattle.capi_peaks.specs.Numbers.{no_reading, left_fits, no_survey, survey_fits, survey_at, survey_of};
ghost use Rattle.capi_peaks.specs.Numbers.{of_survey, handing_fits, handing_at, no_handing, handing_of, of_handing};
ghost use Rattle.capi_peaks.specs.Told.{opened_at, taken_in, begun_from, handed_in, survey_kept, handing_kept};
ghost use Rattle.capi_peaks.specs.Told.{last_told};
ghost use Rattle.capi_peaks.specs.Told.{peaks_surveyed, peaks_taken, peaks_begun, peaks_handed, peak_sizes};
ghost use Rattle.capi_peaks.specs.Told.{peak_times, peak_last};

use peak_groups::{Group, Peak};
use peak_machine::Envelope;
use peak_stream::{Handed, Handing, Reading, Surveying};
use refusal::Refusal;

const SURVEY_NUMBERS: usize = 10;

const HANDING_NUMBERS: usize = 24;

// The greatest number of 32 bits, the greatest magnitude of a sample, the latest time.
const MOST: u64 = 4_294_967_295;

const LARGEST: u64 = 1_000_000;

const LATEST: u64 = 10_000_000;

// Whether three numbers from i are a peak.
fn peak_fits(s: &[u64], i: usize) -> bool
    requires { i + 3 ≤ length s.now }
    ensures { result ≡ peak_fits s.now i }
{
    truth::both(
        s[i] <= 1,
        truth::both(s[i + 1] <= LARGEST, s[i + 2] <= LATEST),
    )
}

fn peak_at(s: &[u64], i: usize) -> Peak
    requires { (i + 3 ≤ length s.now) × (peak_fits s.now i ≡ true) }
    ensures { result ≡ peak_at s.now i }
{
    Peak {
        below: s[i] == 1,
        size: s[i + 1] as u32,
        time: s[i + 2] as u32,
    }
}

// Whether seven numbers from i are a group.
fn group_fits(s: &[u64], i: usize) -> bool
    requires { i + 7 ≤ length s.now }
    ensures { result ≡ group_fits s.now i }
{
    truth::both(peak_fits(s, i + 1), peak_fits(s, i + 4))
}

fn group_at(s: &[u64], i: usize) -> Group
    requires { (i + 7 ≤ length s.now) × (group_fits s.now i ≡ true) }
    ensures { result ≡ group_at s.now i }
{
    let last = peak_at(s, i + 1);
    let best = peak_at(s, i + 4);
    Group {
        opened: s[i],
        last,
        best,
    }
}

// Whether the first six numbers are a reading.
fn reading_fits(s: &[u64]) -> bool
    requires { 6 ≤ length s.now }
    ensures { result ≡ reading_fits s.now }
{
    truth::both(
        truth::both(1 <= s[0], s[0] <= sample_items::LONGEST_STEP),
        truth::both(s[1] <= MOST, truth::both(s[2] <= MOST, peak_fits(s, 3))),
    )
}

fn reading_at(s: &[u64]) -> Reading
    requires { (6 ≤ length s.now) × (reading_fits s.now ≡ true) }
    ensures { result ≡ reading_at s.now }
{
    let best = peak_at(s, 3);
    Reading {
        best,
        step: s[0] as u32,
        n: s[1] as u32,
        opened: s[2] as u32,
    }
}

// A run that no sample opened: a state that no pass has.
fn no_reading() -> Reading
    ensures { result ≡ no_reading }
{
    Reading {
        best: Peak {
            below: false,
            size: 0,
            time: 0,
        },
        step: 0,
        n: 0,
        opened: 1,
    }
}

fn no_survey() -> Surveying
    ensures { result ≡ no_survey }
{
    let reading = no_reading();
    Surveying {
        reading,
        number: 0,
        sum: 0,
    }
}

// The number at i, 0 past the end.
fn number_at(s: &[u64], i: usize) -> u64
    ensures { result ≡ number_at s.now i }
{
    if s.len() <= i {
        return 0;
    }
    s[i]
}

// Whether the number at i is what is left of a ramp.
fn left_fits(s: &[u64], i: usize) -> bool
    ensures { result ≡ left_fits s.now i }
{
    let left = number_at(s, i);
    truth::both(
        truth::both(0 <= left, left <= sample_items::LONGEST_RAMP),
        truth::either(left == 0, number_at(s, 1) == 0),
    )
}

fn survey_fits(s: &[u64]) -> bool
    requires { 10 ≤ length s.now }
    ensures { result ≡ survey_fits s.now }
{
    truth::both(
        reading_fits(s),
        truth::both(
            s[6] <= MOST,
            truth::both(
                truth::both(0 <= s[8], s[8] <= sample_items::LONGEST_RAMP),
                left_fits(s, 9),
            ),
        ),
    )
}

fn survey_at(s: &[u64]) -> Surveying
    requires { (10 ≤ length s.now) × (survey_fits s.now ≡ true) }
    ensures { result ≡ survey_at s.now }
{
    let reading = reading_at(s);
    Surveying {
        reading,
        number: s[6] as u32,
        sum: s[7],
    }
}

// The first pass that an array holds.
#[tactic(auto, unfolding(crate::specs::Numbers::survey_of))]
fn survey_of(state: &[u64]) -> Surveying
    ensures { result ≡ survey_of state.now }
{
    if state.len() != SURVEY_NUMBERS {
        return no_survey();
    }
    if !survey_fits(state) {
        return no_survey();
    }
    survey_at(state)
}

fn of_survey(s: Surveying, ramp: u64, left: u64) -> [u64; 10]
    ensures { result ≡ of_survey s ramp left }
{
    let r = s.reading;
    let best = r.best;
    [
        r.step as u64,
        r.n as u64,
        r.opened as u64,
        capi::flag(best.below),
        best.size as u64,
        best.time as u64,
        s.number as u64,
        s.sum,
        ramp,
        left,
    ]
}

fn no_handing() -> Handing
    ensures { result ≡ no_handing }
{
    let reading = no_reading();
    let envelope = peak_machine::fresh();
    Handing {
        reading,
        envelope,
        decorrelation: 0,
        number: 0,
        sum: 0,
    }
}

fn handing_fits(s: &[u64]) -> bool
    requires { 24 ≤ length s.now }
    ensures { result ≡ handing_fits s.now }
{
    truth::both(
        reading_fits(s),
        truth::both(
            group_fits(s, 6),
            truth::both(
                group_fits(s, 13),
                truth::both(
                    truth::both(0 <= s[20], s[20] <= sample_items::LONGEST_DECORRELATION),
                    truth::both(s[21] <= MOST, left_fits(s, 23)),
                ),
            ),
        ),
    )
}

fn handing_at(s: &[u64]) -> Handing
    requires { (24 ≤ length s.now) × (handing_fits s.now ≡ true) }
    ensures { result ≡ handing_at s.now }
{
    let reading = reading_at(s);
    let stretches = group_at(s, 6);
    let chains = group_at(s, 13);
    Handing {
        reading,
        envelope: Envelope { stretches, chains },
        decorrelation: s[20] as u32,
        number: s[21] as u32,
        sum: s[22],
    }
}

// The second pass that an array holds.
#[tactic(auto, unfolding(crate::specs::Numbers::handing_of))]
fn handing_of(state: &[u64]) -> Handing
    ensures { result ≡ handing_of state.now }
{
    if state.len() != HANDING_NUMBERS {
        return no_handing();
    }
    if !handing_fits(state) {
        return no_handing();
    }
    handing_at(state)
}

fn of_handing(h: Handing, left: u64) -> [u64; 24]
    ensures { result ≡ of_handing h left }
{
    let r = h.reading;
    let best = r.best;
    let e = h.envelope;
    let stretches = e.stretches;
    let stretch_last = stretches.last;
    let stretch_best = stretches.best;
    let chains = e.chains;
    let chain_last = chains.last;
    let chain_best = chains.best;
    [
        r.step as u64,
        r.n as u64,
        r.opened as u64,
        capi::flag(best.below),
        best.size as u64,
        best.time as u64,
        stretches.opened,
        capi::flag(stretch_last.below),
        stretch_last.size as u64,
        stretch_last.time as u64,
        capi::flag(stretch_best.below),
        stretch_best.size as u64,
        stretch_best.time as u64,
        chains.opened,
        capi::flag(chain_last.below),
        chain_last.size as u64,
        chain_last.time as u64,
        capi::flag(chain_best.below),
        chain_best.size as u64,
        chain_best.time as u64,
        h.decorrelation as u64,
        h.number as u64,
        h.sum,
        left,
    ]
}

// The first pass of an answer in `state`, with the ramp and what is left of it; or refusal 8 for an array of another
// length, else the answer's.
#[tactic(auto, unfolding(crate::specs::Told::survey_kept, crate::specs::Told::survey_told))]
fn keep_survey(
    a: Result<Surveying, Refusal>,
    ramp: u64,
    left: u64,
    state: &mut [u64],
    carried: &mut u64,
) -> u64
    ensures { told result carried.new state.new
        ≡ survey_kept a ramp left state.old }
{
    match a {
        Ok(s) => {
            let numbers = of_survey(s, ramp, left);
            capi::keep(&numbers, state, carried)
        }
        Err(f) => capi::refuse(capi::for_places(f, SURVEY_NUMBERS, state.len()), carried),
    }
}

// The second pass of an answer in `state`, with what is left of the ramp, and how many peaks it closed; or refusal 8
// for an array of another length, else the answer's.
#[tactic(auto, unfolding(crate::specs::Told::handing_kept, crate::specs::Told::handing_told))]
fn keep_handing(a: Handed, left: u64, state: &mut [u64], carried: &mut u64) -> u64
    ensures { told result carried.new state.new ≡ handing_kept a left state.old }
{
    if state.len() != HANDING_NUMBERS {
        return capi::refuse(Refusal::BrokenState, carried);
    }
    match a {
        Ok((h, k)) => {
            let numbers = of_handing(h, left);
            capi::put(&numbers, state);
            capi::give(k, carried)
        }
        Err(f) => capi::refuse(f, carried),
    }
}

// How many samples of a piece belong to what is left of the ramp, and what is left of it then.
fn ramp_end(left: u64, len: usize) -> usize
    ensures { result ≡ min left len }
{
    if left < len as u64 {
        left as usize
    } else {
        len
    }
}

fn left_after(left: u64, len: usize) -> u64
    ensures { result ≡ left - len }
{
    if left < len as u64 {
        0
    } else {
        left - len as u64
    }
}

// The first pass before its first sample; or refusal 1 with item 1 or 2.
#[tactic(auto, unfolding(crate::specs::Told::opened_at))]
fn open(step: u64, ramp: u64) -> Result<Surveying, Refusal>
    ensures { result ≡ opened_at step ramp }
{
    if !truth::both(1 <= step, step <= sample_items::LONGEST_STEP) {
        return Err(Refusal::Item(1));
    }
    if !truth::both(0 <= ramp, ramp <= sample_items::LONGEST_RAMP) {
        return Err(Refusal::Item(2));
    }
    peak_stream::survey(step)
}

// The first pass with a piece more, of which what is left of the ramp is left out; or refusal 8, 2 with the first
// place out of range, 3.
#[tactic(auto, unfolding(crate::specs::Told::taken_in))]
fn take(s: Surveying, left: u64, samples: &[i32]) -> Result<Surveying, Refusal>
    ensures { result ≡ taken_in s left samples.now }
{
    if !peak_stream::sound(s) {
        return Err(Refusal::BrokenState);
    }
    let bad = sample_range::first_bad(samples);
    if bad < samples.len() {
        return Err(Refusal::Sample(bad as u64));
    }
    let from = ramp_end(left, samples.len());
    peak_stream::take(s, &samples[from..])
}

// The second pass before its first sample; or refusal 8, 1 with item 4, 4.
#[tactic(auto, unfolding(crate::specs::Told::begun_from))]
fn begin(s: Surveying, decorrelation: u64) -> Handed
    ensures { result ≡ begun_from s decorrelation }
{
    if !peak_stream::sound(s) {
        return Err(Refusal::BrokenState);
    }
    if !truth::both(
        0 <= decorrelation,
        decorrelation <= sample_items::LONGEST_DECORRELATION,
    ) {
        return Err(Refusal::Item(4));
    }
    let r = s.reading;
    if r.n < 2 {
        return Err(Refusal::TooShort);
    }
    peak_stream::begin(r.step as u64, decorrelation, s.number, s.sum)
}

// The second pass with a piece more, of which what is left of the ramp is left out, and how many peaks it closed; or
// refusal 8, 2 with the first place out of range, 3, 7 with the places needed.
#[tactic(auto, unfolding(crate::specs::Told::handed_in))]
fn hand_over(h: Handing, left: u64, samples: &[i32], sizes: &mut [u32], times: &mut [u32]) -> Handed
    ensures { (result ≡ handed_in h left samples.now (length sizes.old)
        (length times.old))
        × (sizes.new
        ≡ noted result (map size_of (closed_by h (drop left samples.now))) sizes.old)
        × (times.new
        ≡ noted result (map moment_of (closed_by h (drop left samples.now))) times.old) }
{
    if !peak_stream::ready(h) {
        return Err(Refusal::BrokenState);
    }
    let bad = sample_range::first_bad(samples);
    if bad < samples.len() {
        return Err(Refusal::Sample(bad as u64));
    }
    let from = ramp_end(left, samples.len());
    peak_stream::hand_over(h, &samples[from..], sizes, times)
}

// The first pass over a record with that step and ramp, before its first sample, in `state`; or refusal 8 for an array
// of another length, 1 with item 1 or 2.
pub fn chim_peaks_survey(step: u64, ramp: u64, state: &mut [u64], carried: &mut u64) -> u64
    ensures { told result carried.new state.new
        ≡ peaks_surveyed step ramp state.old }
{
    keep_survey(open(step, ramp), ramp, ramp, state, carried)
}

// The first pass in `state` with a piece of samples more; or refusal 8, 2 with the first place of the piece that is
// out of range, 3.
pub fn chim_peaks_take(state: &mut [u64], samples: &[i32], carried: &mut u64) -> u64
    ensures { told result carried.new state.new
        ≡ peaks_taken state.old samples.now }
{
    let s = survey_of(state);
    let ramp = number_at(state, 8);
    let left = number_at(state, 9);
    let a = take(s, left, samples);
    keep_survey(a, ramp, left_after(left, samples.len()), state, carried)
}

// The second pass after the first in `survey`, before its first sample, in `state`; or refusal 8 for the array's
// length or for `survey`, 1 with item 4, 4 where the first pass took fewer than two samples after the ramp.
pub fn chim_peaks_begin(
    survey: &[u64],
    decorrelation: u64,
    state: &mut [u64],
    carried: &mut u64,
) -> u64
    ensures { told result carried.new state.new
        ≡ peaks_begun survey.now decorrelation state.old }
{
    let s = survey_of(survey);
    let ramp = number_at(survey, 8);
    keep_handing(begin(s, decorrelation), ramp, state, carried)
}

// The second pass in `state` with a piece more: the peaks of the chains that it closed, from the start of `sizes` and
// `times`, and their number in `carried`; or refusal 8, 2 with the first place of the piece that is out of range, 3, 7
// with the places needed, one for each sample after the ramp.
pub fn chim_peaks_hand_over(
    state: &mut [u64],
    samples: &[i32],
    sizes: &mut [u32],
    times: &mut [u32],
    carried: &mut u64,
) -> u64
    ensures { (told result carried.new state.new
        ≡ peaks_handed state.old samples.now sizes.old times.old)
        × (sizes.new
        ≡ peak_sizes state.old samples.now sizes.old times.old)
        × (times.new
        ≡ peak_times state.old samples.now sizes.old times.old) }
{
    let h = handing_of(state);
    let left = number_at(state, 23);
    let a = hand_over(h, left, samples, sizes, times);
    keep_handing(a, left_after(left, samples.len()), state, carried)
}

// The peak of the chain that is open where the samples end, in `size` and `time`, and 1 in `carried`; 0 in all three
// where there is none; or refusal 8. The pass stays as it is.
#[tactic(auto, unfolding(crate::specs::Told::peak_last, crate::specs::Told::last_said))]
pub fn chim_peaks_last(state: &[u64], size: &mut u32, time: &mut u32, carried: &mut u64) -> u64
    ensures { last_told result carried.new size.new time.new
        ≡ peak_last state.now size.old time.old }
{
    let h = handing_of(state);
    if !peak_stream::ready(h) {
        return capi::refuse(Refusal::BrokenState, carried);
    }
    let a = peak_stream::finish(h);
    match a {
        Some(p) => {
            *size = p.size;
            *time = p.time;
            capi::give(1, carried)
        }
        None => {
            *size = 0;
            *time = 0;
            capi::give(0, carried)
        }
    }
}
