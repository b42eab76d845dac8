// The counter of a simulator's comma file (document 02, [1]): what `bin/count` says of one, as a promise over bytes. A
// count is opened with a record's items, takes the file piece by piece, and is finished with its line; the definition
// is `Line.count_said`, over the whole text, and that the pieces make no difference is the theorem `Cut.cut_anywhere`. A
// file has one channel: zeros are lent for the other. The state goes in by value and comes back.
#![tactic(auto)]

ghost use Rattle.std.specs.Prelude.{◌≡◌, true, false, ◌+◌, ◌-◌, ◌≤◌, ◌<◌, length, take};
ghost use Rattle.text.specs.Write.{written, place_after};
ghost use Rattle.sample_items.specs.Limits.{step_in_range};
ghost use Rattle.record_feed.specs.Answers.{fed};
ghost use Rattle.desk_line.specs.Said.{longest_said, Puts, putting, put_left};
ghost use Rattle.comma_count.specs.Line.{zeros, first_text, counted};
ghost use Rattle.comma_count.specs.Taking.{is_refused, opening, onward, answering, sound_follow, of_lines, agrees};
ghost use Rattle.comma_count.specs.Taking.{taking, turning, turn_left, line_for, said_ended, end_by, end_of, said_end};
ghost use Rattle.comma_count.specs.Taking.{Leads, over, going, rested, saying};

use comma_stream::{Follow, Rest};
use desk_line::Finished;
use record_end::RecordResult;
use record_state::Record;
use refusal::Refusal;
use sample_items::Items;

const TAB: u8 = b'\t';

const LF: u8 = b'\n';

// The most lines that are fed at once.
const LINES: usize = 1024;

// Past it no time has 12 digits.
const LATEST: u64 = 1_000_000_000_000;

// Where the counting of a file stands.
#[derive(Clone, Copy)]
pub struct Counting {
    // Its lines so far.
    pub follow: Follow,
    // Their record, or what is held against them.
    pub answer: Result<Record, Refusal>,
    // Nothing that follows changes the answer.
    pub over: bool,
}

// Where it stands after a piece, and how many bytes of the piece are used; the others go before the next piece.
#[derive(Clone, Copy)]
pub struct Took {
    pub counting: Counting,
    pub used: usize,
}

fn is_refused(a: Result<Record, Refusal>) -> bool
    ensures { result ≡ is_refused a }
{
    match a {
        Ok(_) => false,
        Err(_) => true,
    }
}

// A count of no lines yet; or one that is over, with refusal 1.
pub fn open(items: Items) -> Counting
    ensures { result ≡ opening items }
{
    let answer = record_state::open(items);
    Counting {
        follow: Follow {
            step: items.step,
            lines: 0,
            outside: 0,
        },
        answer,
        over: is_refused(answer),
    }
}

// A record of one channel, fed a few samples.
fn feed(r: Record, samples: &[i32]) -> Result<Record, Refusal>
    requires { length samples.now ≤ 1024 }
    ensures { result ≡ fed r samples.now (zeros samples.now) }
{
    let zeros = [0i32; LINES];
    let n = samples.len();
    record_feed::feed(r, samples, &zeros[..n])
}

fn onward(a: Result<Record, Refusal>, samples: &[i32]) -> Result<Record, Refusal>
    requires { length samples.now ≤ 1024 }
    ensures { result ≡ onward a samples.now }
{
    feed(a?, samples)
}

// The answer after lines of these samples, up to `f`.
fn answering(f: Follow, a: Result<Record, Refusal>, samples: &[i32]) -> Result<Record, Refusal>
    requires { length samples.now ≤ 1024 }
    ensures { result ≡ answering f a samples.now }
{
    if f.outside == 0 {
        return onward(a, samples);
    }
    Err(Refusal::Sample(f.outside - 1))
}

// Where the right lines that a text starts with lead, and their bytes.
#[derive(Clone, Copy)]
struct Reached {
    follow: Follow,
    answer: Result<Record, Refusal>,
    at: usize,
}

// The right lines that `text` starts with, some at a time.
fn lines(start: Follow, before: Result<Record, Refusal>, text: &[u8]) -> Reached
    requires { step_in_range start.step ≡ true }
    ensures { Leads start before text.now result.follow result.answer result.at }
{
    let mut samples = [0i32; LINES];
    let mut follow = start;
    let mut answer = before;
    let mut at = 0;
    // No range to go over: a turn's step is the lines that `take` found.
    loop {
        let Ok((f, bytes, n)) = comma_stream::take(follow, &text[at..], &mut samples) else {
            return Reached { follow, answer, at };
        };
        answer = answering(f, answer, &samples[..n]);
        follow = f;
        at += bytes;
        if n < LINES {
            return Reached { follow, answer, at };
        }
    }
}

fn sound(f: Follow) -> bool
    ensures { result ≡ sound_follow f }
{
    truth::both(
        comma_line::step_in_range(f.step),
        truth::both(f.lines <= LATEST, f.outside <= f.lines),
    )
}

fn of_lines(f: Follow, r: Record) -> bool
    ensures { result ≡ of_lines f r }
{
    truth::both(
        record_state::sound(r),
        truth::both(
            r.items.step == f.step,
            truth::both(r.n == f.lines, f.outside == 0),
        ),
    )
}

// Whether lines that lead to `f` can have been answered so, as refusal 8 asks.
pub fn agrees(f: Follow, a: Result<Record, Refusal>) -> bool
    ensures { result ≡ agrees f a }
{
    match a {
        Ok(r) => of_lines(f, r),
        Err(_) => sound(f),
    }
}

// A count that is over.
fn stopped(f: Follow, r: Refusal) -> Counting
    ensures { result ≡ over f r }
{
    Counting {
        follow: f,
        answer: Err(r),
        over: true,
    }
}

// What is left after the right lines settles how it goes on.
fn rested(r: Reached, rest: Rest, all: usize) -> Took
    requires { r.follow.lines < 18446744073709551615 }
    ensures { result ≡ rested rest (going r.follow r.answer) r.at all }
{
    let f = r.follow;
    let a = r.answer;
    match rest {
        Rest::Waits(_) => Took {
            counting: Counting {
                follow: f,
                answer: a,
                over: false,
            },
            used: r.at,
        },
        Rest::Over => Took {
            counting: Counting {
                follow: f,
                answer: a,
                over: false,
            },
            used: r.at,
        },
        Rest::Wrong => Took {
            counting: stopped(f, Refusal::CommaLine(f.lines + 1)),
            used: all,
        },
    }
}

// Takes the right lines of a piece, of which `more` says whether others follow. A line begun is left unused; a
// malformed one, or one with a wrong time, ends the count with refusal 10, and all of the piece is used, as it is where
// the count is over. Or 8 for a count whose lines and answer do not agree: none such was handed out.
pub fn take(c: Counting, text: &[u8], more: bool) -> Took
    ensures value { result ≡ taking c text.now more }
    ensures used_in_bounds { (result.used ≤ length text.now) × (length text.now - result.used < 31) }
{
    let all = text.len();
    if c.over {
        return Took {
            counting: c,
            used: all,
        };
    }
    let f = c.follow;
    let before = c.answer;
    if !agrees(f, before) {
        return Took {
            counting: stopped(f, Refusal::BrokenState),
            used: all,
        };
    }
    let reached = lines(f, before, text);
    let at = reached.at;
    rested(reached, comma_stream::left(text, at, more), all)
}

// Where a count stands after a turn, and how many bytes of a line begun stand at the start of the buffer.
#[derive(Clone, Copy)]
pub struct Turned {
    pub counting: Counting,
    pub kept: usize,
}

// A turn of a program that reads through a buffer: takes its first `end` bytes, or all of it where it has not so many,
// and moves those that are left unused to its start.
pub fn turn(c: Counting, text: &mut [u8], end: usize, more: bool) -> Turned
    ensures value { result ≡ turning c (take end text.old) more }
    ensures text_after { text.new ≡ turn_left c end more text.old }
    ensures kept_bound { result.kept < 31 }
{
    let stop = end.min(text.len());
    let took = take(c, &text[..stop], more);
    let used = took.used;
    let kept = stop - used;
    let counting = took.counting;
    text::keep(text, used, kept);
    Turned { counting, kept }
}

// Writes the time of the first failure, or a dash.
fn put_first(first: u64, time: u64, out: &mut [u8], at: usize) -> usize
    requires { at + length (first_text first time) ≤ length out.old }
    ensures value { result ≡ place_after out.old at (first_text first time) }
    ensures out_after { out.new ≡ written out.old at (first_text first time) }
{
    if first == 0 {
        return text::write_bytes(b"-\t", out, at);
    }
    decimal::write_field(time, TAB, out, at)
}

fn put_figures(n: u64, x: RecordResult, out: &mut [u8]) -> Finished
    requires { longest_said ≤ length out.old }
    ensures { Puts (counted n x) out.old result out.new }
{
    let second = decimal::write_field(n, TAB, out, 0);
    let third = decimal::write_field(x.crossings, TAB, out, second);
    let fourth = decimal::write_field(x.counted, TAB, out, third);
    let fifth = decimal::write_field(x.largest, TAB, out, fourth);
    let sixth = put_first(x.first, x.exposure, out, fifth);
    let end = decimal::write_field(x.exposure, LF, out, sixth);
    Finished {
        put: end,
        end: desk_line::READ,
    }
}

fn put_ended(n: u64, e: Result<RecordResult, Refusal>, out: &mut [u8]) -> Finished
    requires { longest_said ≤ length out.old }
    ensures { Puts (said_ended n e) out.old result out.new }
{
    match e {
        Ok(x) => put_figures(n, x, out),
        Err(r) => desk_line::refuse(0, r, out),
    }
}

// The line at fault.
fn line_for(f: Follow, r: Refusal) -> u64
    ensures { result ≡ line_for f r }
{
    let number = refusal::number(r);
    truth::pick(
        number == 10,
        refusal::carried(r),
        truth::pick(number == 2, f.outside, 0),
    )
}

// What a file came to: its record, or the line at fault, 0 where none is, and the refusal.
pub type End = Result<Record, (u64, Refusal)>;

fn by_answer(f: Follow, a: Result<Record, Refusal>) -> End
    ensures { result ≡ end_by f a }
{
    match a {
        Ok(r) => Ok(r),
        Err(q) => Err((line_for(f, q), q)),
    }
}

// What the file came to, for a program that goes on from its record.
pub fn came_to(c: Counting) -> End
    ensures { result ≡ end_of c }
{
    let a = c.answer;
    by_answer(c.follow, a)
}

fn put_end(e: End, out: &mut [u8]) -> Finished
    requires { longest_said ≤ length out.old }
    ensures { Puts (said_end e) out.old result out.new }
{
    match e {
        Ok(r) => put_ended(r.n, record_end::end(r), out),
        Err((line, q)) => desk_line::refuse(line, q, out),
    }
}

// Writes the line of the file to the start of `out`: samples, crossings, groups, largest set, time of the first failure
// or a dash, exposure; or refused, the line at fault or 0, the refusal's number, and after 1 the item. Without room for
// any line nothing is written, and the program ends as failed.
pub fn finish(c: Counting, out: &mut [u8]) -> Finished
    ensures value { result ≡ putting (saying c) out.old }
    ensures out_after { out.new ≡ put_left (saying c) out.old }
{
    if out.len() < desk_line::LONGEST_LINE {
        return desk_line::UNSAID;
    }
    put_end(came_to(c), out)
}
