// Several files of hulls that never reach the level ([14]): what `bin/extrapolate` says of them. Each file is read
// twice, as `bin/peaks` does: the first reading is judged and says which peaks are high, the second hands its peaks
// into a lent list, which is one for all files; its timed samples are added up. After the last file the list is sorted
// downwards, and its line written. The first file that cannot be taken ends it, named by its number. The definition is
// `Files.reach_said`, over the whole texts, and that it makes no difference how each file comes, in either reading, is
// the theorem `Anywhere.reach_anywhere`.
#![tactic(auto)]

ghost use Rattle.std.specs.Prelude.{◌≡◌, cond, false, ◌+◌, ◌-◌, ◌≤◌, ltb, length, take, Ok, Err};
ghost use Rattle.std.proofs.lemmas.List.Edits.{sets};
ghost use Rattle.text.specs.Write.{written, place_after};
ghost use Rattle.desk_line.specs.Said.{longest_said, Puts, putting, put_left};
ghost use Rattle.peak_tail.specs.Fitting.{tail_outside};
ghost use Rattle.sample_items.specs.Limits.{item_outside};
ghost use Rattle.reach_files.specs.Files.{items_of, most_timed};
ghost use Rattle.reach_files.specs.Line.{above_level, rejected_text, letter_text, figures_line, told, low};
ghost use Rattle.reach_files.specs.Line.{refused_list, figures_of, extrapolated_for, list_said};
ghost use Rattle.reach_files.specs.Gathering.{opened, counted_to, put_from, kept_by, list_by, last_sizes, last_one};
ghost use Rattle.reach_files.specs.Gathering.{grown_by, added_in, is_over, gathered_said, list_left};
ghost use Rattle.reach_files.specs.Steps.{kept_with, list_with, kept_on, list_on};
ghost use Rattle.reach_files.specs.Files.{judged_then};

use comma_peaks::Judged;
use desk_line::Finished;
use peak_groups::Peak;
use peak_reach::{Letter, Times};
use peak_stream::{Handed, Handing};
use refusal::Refusal;
use sample_channels::Levels;
use sample_items::Items;

const TAB: u8 = b'\t';

const LF: u8 = b'\n';

// The most samples of a block.
const LINES: usize = 1024;

// The refusal that has the k-th peak after its number.
const LOW_LEVEL: u64 = 20;

// What is asked: the items of a record, k and the standard.
#[derive(Clone, Copy)]
pub struct Job {
    pub step: u64,
    pub ramp: u64,
    pub level: u64,
    pub decorrelation: u64,
    pub tail: u64,
    pub standard: u64,
}

// The files so far, their peaks, which stand at the start of the list, and their timed samples.
#[derive(Clone, Copy)]
pub struct Gathered {
    pub files: u64,
    pub peaks: u64,
    pub samples: u64,
}

// What the line tells.
#[derive(Clone, Copy)]
pub struct Figures {
    pub files: u64,
    pub peaks: u64,
    pub samples: u64,
    pub tail: u64,
    pub last: u64,
    pub sum: u64,
    pub above: u64,
    pub times: Times,
    pub letter: Letter,
}

fn items_outside(j: Job) -> u64
    ensures { result ≡ item_outside (items_of j) }
{
    let levels = Levels {
        roll: j.level,
        acceleration: j.level,
    };
    sample_items::item_outside(Items {
        step: j.step,
        ramp: j.ramp,
        levels,
        decorrelation: j.decorrelation,
    })
}

// What files came to; or the number of the file at fault, its line or 0, and the refusal.
pub type Gathering = Result<Gathered, (u64, u64, Refusal)>;

// No files yet; or 1 with the lowest item outside its range, 16 for a k that no list has. Neither is a file's.
pub fn open(j: Job) -> Gathering
    ensures { result ≡ opened j }
{
    let item = items_outside(j);
    if item != 0 {
        return Err((0, 0, Refusal::Item(item)));
    }
    if !truth::both(1 <= j.standard, j.standard <= peak_reach::LONGEST_STANDARD) {
        return Err((0, 0, Refusal::Item(5)));
    }
    if peak_tail::tail_outside(peak_tail::LONGEST_LIST, j.tail) {
        return Err((0, 0, Refusal::Tail));
    }
    Ok(Gathered {
        files: 0,
        peaks: 0,
        samples: 0,
    })
}

// Whether a file was refused: nothing that follows changes it.
pub fn is_over(a: Gathering) -> bool
    ensures { result ≡ is_over a }
{
    a.is_err()
}

// The second reading of a file: where it stands, and how many peaks the list has, those of the files before with it.
#[derive(Clone, Copy)]
pub struct Kept {
    pub handed: Handed,
    pub peaks: u64,
}

// Puts the peaks into the list, from a place on; those without a place are left out.
fn put_all(sizes: &[u32], list: &mut [u32], at: usize)
    requires { (at ≤ 4096) × (length sizes.now ≤ 1024) }
    ensures { list.new ≡ sets list.old at sizes.now }
{
    for i in 0..sizes.len() {
        peak_machine::place(list, at + i, sizes[i]);
    }
}

// The same where the list has not too many already; answers how many it has then.
fn keep(at: u64, sizes: &[u32], list: &mut [u32]) -> u64
    requires { length sizes.now ≤ 1024 }
    ensures value { result ≡ counted_to at (length sizes.now) }
    ensures list_after { list.new ≡ put_from at sizes.now list.old }
{
    if peak_tail::LONGEST_LIST < at {
        return at;
    }
    put_all(sizes, list, at as usize);
    at + sizes.len() as u64
}

// The peaks of a block that a pass has closed, which are the first of `sizes`.
fn kept_by(a: Handed, peaks: u64, sizes: &[u32], list: &mut [u32]) -> Kept
    requires { length sizes.now ≤ 1024 }
    ensures value { result ≡ kept_with a peaks sizes.now }
    ensures list_after { list.new
        ≡ list_with a peaks sizes.now list.old }
{
    match a {
        Ok((next, k)) => {
            let n = k.min(sizes.len() as u64) as usize;
            let kept = keep(peaks, &sizes[..n], list);
            Kept {
                handed: Ok((next, k)),
                peaks: kept,
            }
        }
        Err(q) => Kept {
            handed: Err(q),
            peaks,
        },
    }
}

fn hand_on(h: Handing, peaks: u64, ramp: u64, lines: u64, samples: &[i32], list: &mut [u32]) -> Kept
    ensures value { result ≡ kept_on ramp lines h peaks samples.now }
    ensures list_after { list.new
        ≡ list_on ramp lines h peaks samples.now list.old }
{
    let mut sizes = [0u32; LINES];
    let mut times = [0u32; LINES];
    let a = comma_peaks::hand(h, ramp, lines, samples, &mut sizes, &mut times);
    kept_by(a, peaks, &sizes, list)
}

// The second reading with a block of samples more, of lines that come after so many: the peaks that they close go into
// the list. A reading that was refused stays, and a block of more than 1,024 samples refuses it.
pub fn hand(k: Kept, ramp: u64, lines: u64, samples: &[i32], list: &mut [u32]) -> Kept
    ensures value { result ≡ kept_by ramp lines k samples.now }
    ensures list_after { list.new ≡ list_by ramp lines k samples.now list.old }
{
    let a = k.handed;
    match a {
        Ok((h, _)) => hand_on(h, k.peaks, ramp, lines, samples, list),
        Err(q) => Kept {
            handed: Err(q),
            peaks: k.peaks,
        },
    }
}

fn put_last(l: Option<Peak>, at: u64, list: &mut [u32]) -> u64
    ensures value { result ≡ counted_to at (length (last_one l)) }
    ensures list_after { list.new ≡ put_from at (last_one l) list.old }
{
    match l {
        Some(p) => {
            let one = [p.size; 1];
            keep(at, &one, list)
        }
        None => at,
    }
}

// The end of the second reading: the peak of the chain that is open goes into the list. Answers how many the list has
// then.
pub fn last(k: Kept, list: &mut [u32]) -> u64
    ensures value { result ≡ counted_to k.peaks (length (last_sizes k.handed)) }
    ensures list_after { list.new ≡ put_from k.peaks (last_sizes k.handed) list.old }
{
    let a = k.handed;
    match a {
        Ok((h, _)) => put_last(peak_stream::finish(h), k.peaks, list),
        Err(_) => k.peaks,
    }
}

fn timed(lines: u64, ramp: u64) -> u64
    ensures { result ≡ lines - ramp }
{
    if lines < ramp {
        return 0;
    }
    lines - ramp
}

// Whether so many samples more are too many.
fn passes(samples: u64, more: u64) -> bool
    ensures { result ≡ ltb most_timed (samples + more) }
{
    if peak_reach::MOST_SAMPLES < samples {
        return true;
    }
    peak_reach::MOST_SAMPLES - samples < more
}

fn grown_by(j: Job, file: u64, g: Gathered, lines: u64, peaks: u64) -> Gathering
    ensures { result ≡ grown_by j file g lines peaks }
{
    if peak_tail::LONGEST_LIST < peaks {
        return Err((file, 0, Refusal::Tail));
    }
    let more = timed(lines, j.ramp);
    if passes(g.samples, more) {
        return Err((file, 0, Refusal::TimedSamples));
    }
    Ok(Gathered {
        files: file,
        peaks,
        samples: g.samples + more,
    })
}

fn judged_by(j: Job, file: u64, g: Gathered, came: Judged, lines: u64, peaks: u64) -> Gathering
    ensures { result ≡ judged_then ((λ a b. Err (file, a, b))) (grown_by j file g lines peaks) came }
{
    match came {
        Err((line, q)) => Err((file, line, q)),
        Ok(()) => grown_by(j, file, g, lines, peaks),
    }
}

// The gathering with a file, the one of that number: what its first reading came to, its lines, and how many peaks the
// list has after its second. Or 10, 2, 3, 4 with the line at fault; 16 for a list that is too long, 19 for too many
// timed samples. What was refused stays.
pub fn add(j: Job, file: u64, a: Gathering, came: Judged, lines: u64, peaks: u64) -> Gathering
    ensures { result ≡ added_in j file a came lines peaks }
{
    match a {
        Ok(g) => judged_by(j, file, g, came, lines, peaks),
        Err((first, line, q)) => Err((first, line, q)),
    }
}

// 1 for a peak above the level, else 0.
fn is_above(level: u64, y: u32) -> u64
    ensures value { result ≡ cond (ltb level y) 1 0 }
    ensures upper_bound { result ≤ 1 }
{
    if level < y as u64 { 1 } else { 0 }
}

// How many peaks are above the level.
fn above(level: u64, ys: &[u32]) -> u64
    ensures { result ≡ above_level level ys.now }
{
    let mut n: u64 = 0;
    for y in ys {
        n += is_above(level, *y);
    }
    n
}

fn wide(y: u32) -> u64
    ensures { result ≡ y }
{
    y as u64
}

// Writes the shortest standard that is rejected, or a dash.
fn put_rejected(time: u64, out: &mut [u8], at: usize) -> usize
    requires { at + length (rejected_text time) ≤ length out.old }
    ensures value { result ≡ place_after out.old at (rejected_text time) }
    ensures out_after { out.new ≡ written out.old at (rejected_text time) }
{
    if time == 0 {
        return text::write_bytes(b"-\t", out, at);
    }
    decimal::write_field(time, TAB, out, at)
}

fn put_letter(l: Letter, out: &mut [u8], at: usize) -> usize
    requires { at + length (letter_text l) ≤ length out.old }
    ensures value { result ≡ place_after out.old at (letter_text l) }
    ensures out_after { out.new ≡ written out.old at (letter_text l) }
{
    match l {
        Letter::Accept => text::write_bytes(b"A\n", out, at),
        Letter::Reject => text::write_bytes(b"R\n", out, at),
        Letter::Continue => text::write_bytes(b"C\n", out, at),
    }
}

fn put_figures(f: Figures, out: &mut [u8]) -> Finished
    requires { (longest_said ≤ length out.old) × (length (figures_line f) ≤ longest_said) }
    ensures { Puts (told f) out.old result out.new }
{
    let t = f.times;
    let letter = f.letter;
    let second = decimal::write_field(f.files, TAB, out, 0);
    let third = decimal::write_field(f.peaks, TAB, out, second);
    let fourth = decimal::write_field(f.samples, TAB, out, third);
    let fifth = decimal::write_field(f.tail, TAB, out, fourth);
    let sixth = decimal::write_field(f.last, TAB, out, fifth);
    let seventh = decimal::write_field(f.sum, TAB, out, sixth);
    let eighth = decimal::write_field(f.above, TAB, out, seventh);
    let ninth = decimal::write_field(t.estimate, TAB, out, eighth);
    let tenth = decimal::write_field(t.accepted, TAB, out, ninth);
    let eleventh = put_rejected(t.rejected, out, tenth);
    let end = put_letter(letter, out, eleventh);
    Finished {
        put: end,
        end: desk_line::READ,
    }
}

fn put_low(u: u64, out: &mut [u8]) -> Finished
    requires { longest_said ≤ length out.old }
    ensures { Puts (low u) out.old result out.new }
{
    let file = text::write_bytes(b"refused\t", out, 0);
    let line = decimal::write_field(0, TAB, out, file);
    let number = decimal::write_field(0, TAB, out, line);
    let peak = decimal::write_field(LOW_LEVEL, TAB, out, number);
    let n = decimal::write_field(u, LF, out, peak);
    Finished {
        put: n,
        end: desk_line::REFUSED,
    }
}

fn put_refused(q: Refusal, out: &mut [u8]) -> Finished
    ensures value { result ≡ putting (refused_list q) out.old }
    ensures out_after { out.new ≡ put_left (refused_list q) out.old }
{
    if refusal::number(q) != LOW_LEVEL {
        return desk_line::refuse_in(0, 0, q, out);
    }
    if out.len() < desk_line::LONGEST_LINE {
        return desk_line::UNSAID;
    }
    put_low(refusal::carried(q), out)
}

// The files that were taken: what is asked of them, their number, their timed samples, and their peaks, which lie
// downwards.
#[derive(Clone, Copy)]
struct Taken<'a> {
    job: Job,
    files: u64,
    samples: u64,
    ys: &'a [u32],
}

impl<'a> Taken<'a> {
    // What the line tells of them.
    fn figures(self, t: Times, l: Letter) -> Figures
        requires { tail_outside (length self.ys.now) self.job.tail ≡ false }
        ensures { let a = self.entry in result ≡ figures_of a.job a.files a.samples a.ys.now t l }
    {
        let last = (self.job.tail - 1) as usize;
        let y = wide(self.ys[last]);
        let sum = peak_tail::hill_sum(self.ys, self.job.tail);
        let above = above(self.job.level, self.ys);
        Figures {
            files: self.files,
            peaks: self.ys.len() as u64,
            samples: self.samples,
            tail: self.job.tail,
            last: y,
            sum,
            above,
            times: t,
            letter: l,
        }
    }

    fn put_found(self, t: Times, l: Letter, out: &mut [u8]) -> Finished
        requires { extrapolated_for self.job self.samples self.ys.now ≡ Ok (t, l) }
        ensures value { let a = self.entry in result
            ≡ putting (told (figures_of a.job a.files a.samples a.ys.now t l)) out.old }
        ensures out_after { let a = self.entry in out.new
            ≡ put_left (told (figures_of a.job a.files a.samples a.ys.now t l)) out.old }
    {
        if out.len() < desk_line::LONGEST_LINE {
            return desk_line::UNSAID;
        }
        let f = self.figures(t, l);
        put_figures(f, out)
    }

    // Writes what they come to.
    fn put(self, out: &mut [u8]) -> Finished
        ensures value { let a = self.entry in result
            ≡ putting (list_said a.job a.files a.samples a.ys.now) out.old }
        ensures out_after { let a = self.entry in out.new
            ≡ put_left (list_said a.job a.files a.samples a.ys.now) out.old }
    {
        let j = self.job;
        match peak_reach::extrapolate(self.ys, j.tail, j.level, j.step, self.samples, j.standard) {
            Ok((t, l)) => self.put_found(t, l, out),
            Err(q) => put_refused(q, out),
        }
    }
}

fn put_list(j: Job, g: Gathered, list: &mut [u32], out: &mut [u8]) -> Finished
    ensures value { result ≡ putting (gathered_said j (Ok g) list.old) out.old }
    ensures out_after { out.new ≡ put_left (gathered_said j (Ok g) list.old) out.old }
    ensures list_after { list.new ≡ list_left (Ok g) list.old }
{
    let n = g.peaks.min(list.len() as u64) as usize;
    sorting::sort(&mut list[..n]);
    let taken = Taken {
        job: j,
        files: g.files,
        samples: g.samples,
        ys: &list[..n],
    };
    taken.put(out)
}

// Writes the line of the files to the start of `out`: files, peaks, timed samples, k, the k-th peak, the Hill sum, the
// peaks above the level, the estimate, the longest standard accepted and the shortest rejected in ms, and the letter;
// or refused, the number of the file at fault or 0, its line or 0, the refusal's number, after 1 the item, and after 20
// the k-th peak. Without room for any line nothing is written, and the program ends as failed. The peaks are downwards
// then.
pub fn finish(j: Job, a: Gathering, list: &mut [u32], out: &mut [u8]) -> Finished
    ensures value { result ≡ putting (gathered_said j a list.old) out.old }
    ensures out_after { out.new ≡ put_left (gathered_said j a list.old) out.old }
    ensures list_after { list.new ≡ list_left a list.old }
{
    match a {
        Ok(g) => put_list(j, g, list, out),
        Err((file, line, q)) => desk_line::refuse_in(file, line, q, out),
    }
}
