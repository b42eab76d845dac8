// What `bin/peaks` decides of a comma file (document 02, [1] and [11]): which of the samples of some lines are timed,
// in either of its two readings; what the file comes to after the first, in the order 10, 2, 3, 4; and whether the
// second was like the first. The definition is `comes_to`, over all lines of a text. Item numbers are judged before a
// file is opened.
#![tactic(auto)]

ghost use Rattle.std.specs.Prelude.{◌≡◌, ◌-◌, min};
ghost use Rattle.comma_peaks.specs.Timed.{timed_of, counting, surveying_in};
ghost use Rattle.comma_peaks.specs.Judged.{judging, alike};
ghost use Rattle.peak_stream.specs.Hands.{HandsOver};
ghost use Rattle.sample_items.specs.Limits.{most_in_range};

use comma_stream::Follow;
use peak_stream::{Handed, Handing, Reading, Surveying};
use refusal::Refusal;

fn least(a: u64, b: usize) -> usize
    ensures { result ≡ min a b }
{
    if a < b as u64 { a as usize } else { b }
}

// How many of `len` samples after so many lines belong to the ramp.
fn ramp_end(ramp: u64, lines: u64, len: usize) -> usize
    ensures { result ≡ min (ramp - lines) len }
{
    if ramp < lines {
        return 0;
    }
    least(ramp - lines, len)
}

// How many of `len` timed samples a reading takes: what is more than a record may have is refused by the number of
// lines.
fn timed_end(r: Reading, len: usize) -> usize
    ensures { result ≡ min (most_in_range r.step 0 - r.n) len }
{
    let most = sample_items::most_samples(r.step as u64, 0);
    if most < r.n as u64 {
        return 0;
    }
    least(most - r.n as u64, len)
}

fn surveying_in(a: Result<Surveying, Refusal>, s: Surveying) -> Surveying
    ensures { result ≡ surveying_in a s }
{
    match a {
        Ok(t) => t,
        Err(_) => s,
    }
}

// A first pass with the samples of lines that come after so many; one that was never handed out stays.
pub fn count(s: Surveying, ramp: u64, lines: u64, samples: &[i32]) -> Surveying
    ensures { result ≡ counting ramp lines s samples.now }
{
    let from = ramp_end(ramp, lines, samples.len());
    let timed = &samples[from..];
    let n = timed_end(s.reading, timed.len());
    surveying_in(peak_stream::take(s, &timed[..n]), s)
}

// The same for a second pass, which hands out the peaks that they close as `peak_stream::hand_over` does.
pub fn hand(
    h: Handing,
    ramp: u64,
    lines: u64,
    samples: &[i32],
    sizes: &mut [u32],
    times: &mut [u32],
) -> Handed
    ensures { HandsOver h (timed_of ramp lines h.reading samples.now)
        sizes.old times.old result sizes.new times.new }
{
    let from = ramp_end(ramp, lines, samples.len());
    let timed = &samples[from..];
    let n = timed_end(h.reading, timed.len());
    peak_stream::hand_over(h, &timed[..n], sizes, times)
}

// What a file comes to after its first reading: its peaks, or the line at fault or 0 with the refusal.
pub type Judged = Result<(), (u64, Refusal)>;

// After the lines of `f`; `wrong` says that the next one is malformed or has a wrong time.
pub fn judge(f: Follow, ramp: u64, wrong: bool) -> Judged
    ensures { result ≡ judging f ramp wrong }
{
    if wrong {
        let line = std::num::wrapping_add_u64(f.lines, 1);
        return Err((line, Refusal::CommaLine(line)));
    }
    if f.outside != 0 {
        return Err((f.outside, Refusal::Sample(f.outside - 1)));
    }
    if sample_items::most_samples(f.step, ramp) < f.lines {
        return Err((0, Refusal::TooLong));
    }
    if f.lines < 2 {
        return Err((0, Refusal::TooShort));
    }
    if f.lines - 2 < ramp {
        return Err((0, Refusal::TooShort));
    }
    Ok(())
}

// Whether two readings are alike: as many lines, the same first sample out of range, as many peaks with the same sum.
pub fn alike(f: Follow, s: Surveying, g: Follow, t: Surveying) -> bool
    ensures { result ≡ alike f s g t }
{
    truth::both(
        truth::both(f.lines == g.lines, f.outside == g.outside),
        truth::both(s.number == t.number, s.sum == t.sum),
    )
}
