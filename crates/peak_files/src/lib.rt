// What `bin/peaks` writes of comma files (document 02, [1] and [11]), as a promise over bytes: the lines of a file's
// envelope peaks in order of time, or its refused line. A file is read twice, piece by piece, and no samples are held:
// the first reading counts and is judged, the second hands out the peaks as their chains close. The definitions are
// `Said.peaks_said` and `Said.files_said`, over the whole texts; that it makes no difference how either reading is cut is
// the theorem `Anywhere.file_anywhere`, and of several files `Anywhere.files_anywhere`. A state goes in by value and
// comes back.
#![tactic(auto)]

ghost use Rattle.std.specs.Prelude.{◌≡◌, [], ◌∷◌, false, ◌≤◌, length, drop};
ghost use Rattle.peak_lines.specs.Lines.{peaks_text};
ghost use Rattle.desk_line.specs.Said.{refused, longest_said, Puts, putting, put_left};
ghost use Rattle.peak_files.specs.Said.{places_of, items_said, nothing, judged_said, peaks_read};
ghost use Rattle.peak_files.specs.Passing.{begins, opening, begun_by, again, counted_on, hands_over, hands_out};
ghost use Rattle.peak_files.specs.Passing.{handed_on, given_by, number_of, Gives, Passes, ended_as, took_by, rest_of};
ghost use Rattle.peak_files.specs.Passing.{calling, Calls, judged, alike_taken, alike_by, peak_in, last_by};
ghost use Rattle.peak_files.specs.Passing.{finishing};

use comma_peaks::Judged;
use comma_stream::{Follow, Rest};
use desk_line::Finished;
use peak_groups::Peak;
use peak_stream::{Handed, Handing, Surveying};
use refusal::Refusal;
use sample_channels::Levels;
use sample_items::Items;

// The most lines that are taken at once, and room for the lines of their peaks.
const LINES: usize = 1024;

pub const ROOM: usize = 49_152;

// Nothing is said of a file that is in order.
const NOTHING: Finished = Finished {
    put: 0,
    end: desk_line::READ,
};

// Where a reading of a file stands.
#[derive(Clone, Copy)]
pub struct Pass {
    // Its lines so far.
    pub follow: Follow,
    pub ramp: u64,
    // Its number among several, 0 for a file alone.
    pub file: u64,
    // What the lines count, in either reading.
    pub counted: Result<Surveying, Refusal>,
    // What the second reading hands out; the first hands out nothing.
    pub handing: Handed,
    // Nothing that follows is read, and whether that is for a line that is wrong.
    pub over: bool,
    pub wrong: bool,
}

// Where it stands after a call, how many bytes of the text are used, and how many were written; the others go before
// the next piece.
#[derive(Clone, Copy)]
pub struct Took {
    pub pass: Pass,
    pub used: usize,
    pub put: usize,
}

// The refused line of the lowest item outside its range; or nothing.
pub fn judge_items(step: u64, ramp: u64, decorrelation: u64, out: &mut [u8]) -> Finished
    ensures value { result ≡ putting (items_said step ramp decorrelation) out.old }
    ensures out_after { out.new ≡ put_left (items_said step ramp decorrelation) out.old }
{
    if out.len() < desk_line::LONGEST_LINE {
        return desk_line::UNSAID;
    }
    let item = sample_items::item_outside(Items {
        step,
        ramp,
        levels: Levels {
            roll: 1,
            acceleration: 1,
        },
        decorrelation,
    });
    if item == 0 {
        return NOTHING;
    }
    desk_line::refuse(0, Refusal::Item(item), out)
}

fn begins(step: u64, ramp: u64, file: u64, handing: Handed) -> Pass
    ensures { result ≡ begins step ramp file handing }
{
    Pass {
        follow: Follow {
            step,
            lines: 0,
            outside: 0,
        },
        ramp,
        file,
        counted: peak_stream::survey(step),
        handing,
        over: false,
        wrong: false,
    }
}

// The first reading of a file before its first line.
pub fn open(step: u64, ramp: u64, file: u64) -> Pass
    ensures { result ≡ opening step ramp file }
{
    begins(step, ramp, file, Err(Refusal::BrokenState))
}

fn begun_by(step: u64, decorrelation: u64, counted: Result<Surveying, Refusal>) -> Handed
    ensures { result ≡ begun_by step decorrelation counted }
{
    let s = counted?;
    peak_stream::begin(step, decorrelation, s.number, s.sum)
}

// The second reading of a file, after what the first has counted.
pub fn again(p: Pass, decorrelation: u64) -> Pass
    ensures { result ≡ again p decorrelation }
{
    let f = p.follow;
    let counted = p.counted;
    begins(
        f.step,
        p.ramp,
        p.file,
        begun_by(f.step, decorrelation, counted),
    )
}

fn counted_on(
    counted: Result<Surveying, Refusal>,
    ramp: u64,
    lines: u64,
    samples: &[i32],
) -> Result<Surveying, Refusal>
    ensures { result ≡ counted_on counted ramp lines samples.now }
{
    Ok(comma_peaks::count(counted?, ramp, lines, samples))
}

// How many peaks were handed out.
fn number_of(h: Handed) -> usize
    ensures { result ≡ number_of h }
{
    match h {
        Ok((_, k)) => k as usize,
        Err(_) => 0,
    }
}

// What is handed out after some samples, and how many bytes were written.
#[derive(Clone, Copy)]
struct Gave {
    handing: Handed,
    put: usize,
}

// The peaks that some samples close, in a second reading.
fn hand(file: u64, h: Handing, ramp: u64, lines: u64, samples: &[i32], out: &mut [u8]) -> Gave
    requires { (length samples.now ≤ 1024) × (49152 ≤ length out.old) }
    ensures { Gives (hands_over h ramp lines samples.now)
        (peaks_text file (hands_out h ramp lines samples.now))
        out.old result.handing result.put out.new }
{
    let mut sizes = [0u32; LINES];
    let mut times = [0u32; LINES];
    let handing = comma_peaks::hand(h, ramp, lines, samples, &mut sizes, &mut times);
    let k = number_of(handing);
    let put = peak_lines::write(file, &sizes[..k], &times[..k], out, 0);
    Gave { handing, put }
}

fn handed_on(file: u64, a: Handed, ramp: u64, lines: u64, samples: &[i32], out: &mut [u8]) -> Gave
    requires { (length samples.now ≤ 1024) × (49152 ≤ length out.old) }
    ensures { Gives (handed_on a ramp lines samples.now)
        (peaks_text file (given_by a ramp lines samples.now))
        out.old result.handing result.put out.new }
{
    match a {
        Ok((h, _)) => hand(file, h, ramp, lines, samples, out),
        Err(q) => Gave {
            handing: Err(q),
            put: 0,
        },
    }
}

// A reading with the samples of some lines, up to `f`, and how many bytes were written.
#[derive(Clone, Copy)]
struct Passed {
    pass: Pass,
    put: usize,
}

fn with_samples(p: Pass, f: Follow, samples: &[i32], out: &mut [u8]) -> Passed
    requires { (length samples.now ≤ 1024) × (49152 ≤ length out.old) }
    ensures { Passes p f samples.now out.old result.pass result.put out.new }
{
    let before = p.follow;
    let so_far = p.counted;
    let to_hand = p.handing;
    let counted = counted_on(so_far, p.ramp, before.lines, samples);
    let gave = handed_on(p.file, to_hand, p.ramp, before.lines, samples, out);
    let handing = gave.handing;
    Passed {
        pass: Pass {
            follow: f,
            ramp: p.ramp,
            file: p.file,
            counted,
            handing,
            over: p.over,
            wrong: p.wrong,
        },
        put: gave.put,
    }
}

// A reading that is over.
fn ended(p: Pass, wrong: bool) -> Pass
    ensures { result ≡ ended_as wrong p }
{
    let follow = p.follow;
    let counted = p.counted;
    let handing = p.handing;
    Pass {
        follow,
        ramp: p.ramp,
        file: p.file,
        counted,
        handing,
        over: true,
        wrong,
    }
}

// What stands after n right lines: where they are as many as are taken at once, others may.
fn rest_of(n: usize, text: &[u8], at: usize, more: bool) -> Rest
    ensures { result ≡ rest_of n (drop at text.now) more }
{
    if n < LINES {
        return comma_stream::left(text, at, more);
    }
    Rest::Waits(0)
}

// What is left after the lines settles how it goes on.
fn rested(p: Pass, rest: Rest, at: usize, all: usize, put: usize) -> Took
    ensures { result ≡ took_by rest p at all put }
{
    match rest {
        Rest::Waits(_) => Took {
            pass: p,
            used: at,
            put,
        },
        Rest::Over => Took {
            pass: ended(p, false),
            used: at,
            put,
        },
        Rest::Wrong => Took {
            pass: ended(p, true),
            used: all,
            put,
        },
    }
}

// The right lines of a text whose step is in range.
fn lines(p: Pass, text: &[u8], more: bool, out: &mut [u8]) -> Took
    requires { (p.over ≡ false) × (49152 ≤ length out.old) }
    ensures { Calls (calling p text.now more (length out.old))
        out.old result out.new }
{
    let mut samples = [0i32; LINES];
    let all = text.len();
    let before = p.follow;
    let Ok((f, bytes, n)) = comma_stream::take(before, text, &mut samples) else {
        return Took {
            pass: ended(p, true),
            used: all,
            put: 0,
        };
    };
    let passed = with_samples(p, f, &samples[..n], out);
    let pass = passed.pass;
    rested(pass, rest_of(n, text, bytes, more), bytes, all, passed.put)
}

// Takes the right lines that a text starts with, at most 1024, and writes the lines of the peaks that they close to the
// start of `out`; `more` says whether others follow the text. Where there are fewer, a line begun is left unused, a
// malformed one or one with a wrong time ends the reading, and so does the end of the file. A reading that is over uses
// all of the text. Without room for the lines of 1024 peaks nothing is taken.
pub fn take(p: Pass, text: &[u8], more: bool, out: &mut [u8]) -> Took
    ensures { Calls (calling p text.now more (length out.old))
        out.old result out.new }
{
    let all = text.len();
    if p.over {
        return Took {
            pass: p,
            used: all,
            put: 0,
        };
    }
    if out.len() < ROOM {
        return Took {
            pass: p,
            used: 0,
            put: 0,
        };
    }
    lines(p, text, more, out)
}

fn refuse_at(file: u64, line: u64, r: Refusal, out: &mut [u8]) -> Finished
    ensures value { result ≡ putting (refused (places_of file line) r) out.old }
    ensures out_after { out.new ≡ put_left (refused (places_of file line) r) out.old }
{
    if file == 0 {
        return desk_line::refuse(line, r, out);
    }
    desk_line::refuse_in(file, line, r, out)
}

fn put_judged(file: u64, j: Judged, out: &mut [u8]) -> Finished
    requires { longest_said ≤ length out.old }
    ensures { Puts (judged_said file nothing j) out.old result out.new }
{
    match j {
        Err((line, r)) => refuse_at(file, line, r, out),
        Ok(()) => NOTHING,
    }
}

// After the first reading: writes the refused line of the file to the start of `out`, with the line at fault or 0; or
// nothing, where its peaks are to be handed out. Without room for any line nothing is written, and the program ends as
// failed.
pub fn judge(p: Pass, out: &mut [u8]) -> Finished
    ensures value { result ≡ putting (judged p) out.old }
    ensures out_after { out.new ≡ put_left (judged p) out.old }
{
    if out.len() < desk_line::LONGEST_LINE {
        return desk_line::UNSAID;
    }
    let f = p.follow;
    put_judged(p.file, comma_peaks::judge(f, p.ramp, p.wrong), out)
}

fn alike_taken(f: Follow, s: Surveying, g: Follow, b: Result<Surveying, Refusal>) -> bool
    ensures { result ≡ alike_taken f s g b }
{
    match b {
        Ok(t) => comma_peaks::alike(f, s, g, t),
        Err(_) => false,
    }
}

fn alike_by(
    f: Follow,
    a: Result<Surveying, Refusal>,
    g: Follow,
    b: Result<Surveying, Refusal>,
) -> bool
    ensures { result ≡ alike_by f a g b }
{
    match a {
        Ok(s) => alike_taken(f, s, g, b),
        Err(_) => false,
    }
}

fn put_peak(file: u64, last: Option<Peak>, out: &mut [u8]) -> Finished
    requires { longest_said ≤ length out.old }
    ensures { Puts (peaks_read file (peak_in last)) out.old result out.new }
{
    match last {
        Some(p) => put_one(file, p, out),
        None => NOTHING,
    }
}

fn put_one(file: u64, p: Peak, out: &mut [u8]) -> Finished
    requires { longest_said ≤ length out.old }
    ensures { Puts (peaks_read file (p ∷ [])) out.old result out.new }
{
    let sizes = [p.size; 1];
    let times = [p.time; 1];
    let n = peak_lines::write(file, &sizes, &times, out, 0);
    Finished {
        put: n,
        end: desk_line::READ,
    }
}

fn put_last(file: u64, a: Handed, out: &mut [u8]) -> Finished
    requires { longest_said ≤ length out.old }
    ensures { Puts (peaks_read file (last_by a)) out.old result out.new }
{
    match a {
        Ok((h, _)) => put_peak(file, peak_stream::finish(h), out),
        Err(_) => NOTHING,
    }
}

// After both readings: writes the line of the peak that the end of the file closes to the start of `out`. Where the
// second reading was not like the first, or there is no room for any line, nothing is written, and the program ends as
// failed.
pub fn finish(a: Pass, b: Pass, out: &mut [u8]) -> Finished
    ensures value { result ≡ putting (finishing a b) out.old }
    ensures out_after { out.new ≡ put_left (finishing a b) out.old }
{
    if out.len() < desk_line::LONGEST_LINE {
        return desk_line::UNSAID;
    }
    let f = a.follow;
    let g = b.follow;
    let s = a.counted;
    let t = b.counted;
    if truth::both(alike_by(f, s, g, t), !b.wrong) {
        let handing = b.handing;
        return put_last(b.file, handing, out);
    }
    desk_line::UNSAID
}
