// The counter of two comma files of one record, the roll's and the acceleration's (document 02, [1], [8]): what
// `bin/count` says of them, as a promise over bytes. The count is opened with a record's items, takes both files piece
// by piece, and is finished with their line; the definition is `Line.pair_said`, over both whole texts, and that neither
// the pieces nor their order make a difference is the theorem `Cut.cut_anywhere`. Both files go side by side, so that
// no sample is kept for the other's: what one file has more than the other stays unused. The state goes in by value and
// comes back.
#![tactic(auto)]

ghost use Rattle.std.specs.Prelude.{◌≡◌, true, cond, map, ◌+◌, ◌-◌, ◌≤◌, ◌<◌, length, take, drop, Ok, Err};
ghost use Rattle.text.specs.Write.{written};
ghost use Rattle.sample_items.specs.Limits.{step_in_range};
ghost use Rattle.desk_line.specs.Said.{longest_said, Puts, putting, put_left};
ghost use Rattle.comma_count.specs.Taking as count;
ghost use Rattle.comma_pair.specs.Line.{refused_of};
ghost use Rattle.comma_pair.specs.Taking.{opening, onward, side_by_side, shared, agreeing, watched, stopped, ended};
ghost use Rattle.comma_pair.specs.Taking.{waiting, alone};
ghost use Rattle.comma_pair.specs.Taking.{acceleration_behind, roll_behind, taking, left_over, roll_outside, end_by};
ghost use Rattle.comma_pair.specs.Taking.{end_of, said_end, saying};
ghost use Rattle.comma_pair.specs.Step.{Some, Both};

use comma_count::Counting;
use comma_stream::{Follow, Rest};
use desk_line::Finished;
use record_state::Record;
use refusal::Refusal;
use sample_items::Items;

const TAB: u8 = b'\t';

const LF: u8 = b'\n';

// The channels, as document 02 numbers them.
const ROLL: u64 = 1;

const ACCELERATION: u64 = 2;

// The refusal of a line.
const COMMA_LINE: u64 = 10;

// The most lines that are fed at once.
const LINES: usize = 1024;

// Where the counting of two files stands.
#[derive(Clone, Copy)]
pub struct Watching {
    // Their lines so far.
    pub roll: Follow,
    pub acceleration: Follow,
    // The record of the lines that both have, or what is held against it.
    pub answer: Result<Record, Refusal>,
    // The channel of a line that ended it, or 0.
    pub channel: u64,
    // Nothing that follows changes the answer.
    pub over: bool,
}

// Which file has to be read before more can be taken.
#[derive(Clone, Copy)]
pub enum Next {
    Roll,
    Acceleration,
    Neither,
}

// Where it stands after pieces of both, and how many bytes of each are used; the others go before the next piece.
#[derive(Clone, Copy)]
pub struct Took {
    pub watching: Watching,
    pub roll: usize,
    pub acceleration: usize,
    pub next: Next,
}

// Where both stand after the right lines that they have side by side, their bytes, and whether the roll has one more.
#[derive(Clone, Copy)]
pub struct Abreast {
    pub roll: Follow,
    pub acceleration: Follow,
    pub answer: Result<Record, Refusal>,
    pub at: usize,
    pub beside: usize,
    pub ahead: bool,
}

// What two files are refused by: a refusal that names no line; or the line at fault, the refusal, and the line's
// channel.
#[derive(Clone, Copy)]
pub enum PairFault {
    Plain(Refusal),
    AtLine(u64, Refusal, u64),
}

// A count of no lines yet; or one that is over, with refusal 1.
pub fn open(items: Items) -> Watching
    ensures { result ≡ opening items }
{
    let c = comma_count::open(items);
    let f = c.follow;
    let answer = c.answer;
    Watching {
        roll: f,
        acceleration: f,
        answer,
        channel: 0,
        over: c.over,
    }
}

fn onward(
    a: Result<Record, Refusal>,
    rolls: &[i32],
    accelerations: &[i32],
) -> Result<Record, Refusal>
    ensures { result ≡ onward a rolls.now accelerations.now }
{
    record_feed::feed(a?, rolls, accelerations)
}

// Lines of one file: where it stands after them, their bytes and their number.
#[derive(Clone, Copy)]
struct Lines {
    follow: Follow,
    bytes: usize,
    number: usize,
}

// The first right lines of a text, as many as there are places.
fn some(f: Follow, text: &[u8], samples: &mut [i32]) -> Lines
    requires { step_in_range f.step ≡ true }
    ensures { Some f text.now samples.old result.follow result.bytes result.number
        samples.new }
{
    match comma_stream::take(f, text, samples) {
        Ok((follow, bytes, number)) => Lines {
            follow,
            bytes,
            number,
        },
        Err(_) => Lines {
            follow: f,
            bytes: 0,
            number: 0,
        },
    }
}

// The same of both files, as many lines of each, fed.
#[derive(Clone, Copy)]
struct Pairs {
    roll: Follow,
    acceleration: Follow,
    answer: Result<Record, Refusal>,
    at: usize,
    beside: usize,
    number: usize,
    ahead: bool,
}

// The first right lines of both texts, as many of each. Where the acceleration has fewer, the roll's are taken once
// more. The samples go through lent places.
fn next_pairs(
    f: Follow,
    g: Follow,
    before: Result<Record, Refusal>,
    roll: &[u8],
    acceleration: &[u8],
    rolls: &mut [i32],
    accelerations: &mut [i32],
) -> Pairs
    requires { (step_in_range f.step ≡ true) × (step_in_range g.step ≡ true)
        × (length rolls.old ≡ 1024) × (length accelerations.old ≡ 1024) }
    ensures { Both f g before roll.now acceleration.now result.roll result.acceleration
        result.answer result.at result.beside result.number result.ahead }
{
    let first = some(f, roll, rolls);
    let n = first.number;
    let second = some(g, acceleration, &mut accelerations[..n]);
    let m = second.number;
    let s = second.follow;
    if m < n {
        let again = some(f, roll, &mut rolls[..m]);
        let r = again.follow;
        let answer = onward(before, &rolls[..m], &accelerations[..m]);
        return Pairs {
            roll: r,
            acceleration: s,
            answer,
            at: again.bytes,
            beside: second.bytes,
            number: m,
            ahead: true,
        };
    }
    let r = first.follow;
    let answer = onward(before, &rolls[..m], &accelerations[..m]);
    Pairs {
        roll: r,
        acceleration: s,
        answer,
        at: first.bytes,
        beside: second.bytes,
        number: m,
        ahead: false,
    }
}

// All right lines that both texts start with side by side, some at a time.
fn side_by_side(
    f: Follow,
    g: Follow,
    before: Result<Record, Refusal>,
    roll: &[u8],
    acceleration: &[u8],
) -> Abreast
    requires { (step_in_range f.step ≡ true) × (step_in_range g.step ≡ true) }
    ensures value { result ≡ side_by_side f g before roll.now acceleration.now }
    ensures at_in_bounds { (result.at ≤ length roll.now) × (result.beside ≤ length acceleration.now) }
{
    let mut rolls = [0i32; LINES];
    let mut accelerations = [0i32; LINES];
    let mut r = f;
    let mut s = g;
    let mut answer = before;
    let mut at = 0;
    let mut beside = 0;
    // No range to go over: a turn's step is the lines of both files that were found.
    loop {
        let p = next_pairs(
            r,
            s,
            answer,
            &roll[at..],
            &acceleration[beside..],
            &mut rolls,
            &mut accelerations,
        );
        r = p.roll;
        s = p.acceleration;
        answer = p.answer;
        at += p.at;
        beside += p.beside;
        if p.number < LINES {
            return Abreast {
                roll: r,
                acceleration: s,
                answer,
                at,
                beside,
                ahead: p.ahead,
            };
        }
    }
}

// The lines that both files have, as those of one.
fn shared(f: Follow, g: Follow) -> Follow
    ensures { result ≡ shared f g }
{
    Follow {
        step: f.step,
        lines: f.lines.min(g.lines),
        outside: 0,
    }
}

// Whether two files can lead here, with this answer to the lines that both have.
fn sound(f: Follow, g: Follow, a: Result<Record, Refusal>) -> bool
    ensures { result ≡ agreeing f g a }
{
    let refused = Err(Refusal::Unequal);
    truth::both(
        comma_count::agrees(shared(f, g), a),
        truth::both(
            f.step == g.step,
            truth::both(
                comma_count::agrees(f, refused),
                comma_count::agrees(g, refused),
            ),
        ),
    )
}

// A count that goes on, and one that is over.
fn watched(f: Follow, g: Follow, a: Result<Record, Refusal>) -> Watching
    ensures { result ≡ watched f g a }
{
    Watching {
        roll: f,
        acceleration: g,
        answer: a,
        channel: 0,
        over: false,
    }
}

fn stopped(f: Follow, g: Follow, a: Result<Record, Refusal>, channel: u64) -> Watching
    ensures { result ≡ stopped f g a channel }
{
    Watching {
        roll: f,
        acceleration: g,
        answer: a,
        channel,
        over: true,
    }
}

fn ended(w: Watching, x: usize, y: usize) -> Took
    ensures { result ≡ ended w x y }
{
    Took {
        watching: w,
        roll: x,
        acceleration: y,
        next: Next::Neither,
    }
}

fn waiting(next: Next, s: Abreast) -> Took
    ensures { result ≡ waiting next s }
{
    let answer = s.answer;
    Took {
        watching: watched(s.roll, s.acceleration, answer),
        roll: s.at,
        acceleration: s.beside,
        next,
    }
}

// A file that goes on after the other has ended.
fn alone(f: Follow, text: &[u8], more: bool) -> comma_count::Took
    ensures value { result ≡ count.taking (alone f) text.now more }
    ensures used_in_bounds { (result.used ≤ length text.now) × (length text.now - result.used < 31) }
{
    comma_count::take(
        Counting {
            follow: f,
            answer: Err(Refusal::Unequal),
            over: false,
        },
        text,
        more,
    )
}

// A file has gone on alone to where `s` stands, or one of its lines is wrong.
fn gone_on(c: Counting, channel: u64, s: Abreast, next: Next, x: usize, y: usize) -> Took
    ensures { result ≡ cond c.over (ended (stopped s.roll s.acceleration c.answer channel) x y) (waiting next s) }
{
    if c.over {
        return ended(stopped(s.roll, s.acceleration, c.answer, channel), x, y);
    }
    waiting(next, s)
}

// The acceleration has no right line where the roll has one: what is left of it settles how it goes on. No one function
// for it and `roll_behind`: each arm names other fields of `s`, all of which that one would have to be told.
fn acceleration_behind(s: Abreast, rest: Rest, roll: &[u8], more: bool, y: usize) -> Took
    requires { (s.at ≤ length roll.now) × (s.acceleration.lines < 18446744073709551615) }
    ensures { result ≡ acceleration_behind rest s roll.now more y }
{
    let x = roll.len();
    let f = s.roll;
    let g = s.acceleration;
    let at = s.at;
    match rest {
        Rest::Waits(_) => waiting(Next::Acceleration, s),
        Rest::Over => {
            let t = alone(f, &roll[at..], more);
            let on = Abreast {
                roll: t.counting.follow,
                at: at + t.used,
                ..s
            };
            let next = if more { Next::Roll } else { Next::Neither };
            gone_on(t.counting, ROLL, on, next, x, y)
        }
        Rest::Wrong => ended(
            stopped(f, g, Err(Refusal::CommaLine(g.lines + 1)), ACCELERATION),
            x,
            y,
        ),
    }
}

// The roll has none: of two wrong lines with one number its own is named.
fn roll_behind(s: Abreast, rest: Rest, x: usize, acceleration: &[u8], more: bool) -> Took
    requires { (s.beside ≤ length acceleration.now) × (s.roll.lines < 18446744073709551615) }
    ensures { result ≡ roll_behind rest s x acceleration.now more }
{
    let y = acceleration.len();
    let f = s.roll;
    let g = s.acceleration;
    let at = s.beside;
    match rest {
        Rest::Waits(_) => waiting(Next::Roll, s),
        Rest::Over => {
            let t = alone(g, &acceleration[at..], more);
            let on = Abreast {
                acceleration: t.counting.follow,
                beside: at + t.used,
                ..s
            };
            let next = if more {
                Next::Acceleration
            } else {
                Next::Neither
            };
            gone_on(t.counting, ACCELERATION, on, next, x, y)
        }
        Rest::Wrong => ended(
            stopped(f, g, Err(Refusal::CommaLine(f.lines + 1)), ROLL),
            x,
            y,
        ),
    }
}

// Takes the right lines of pieces of both files, of each of which it is said whether more of it follows. What is over
// stays over. A line begun, and lines that the other file has not shown yet, are left unused, and `next` says which
// file has to be read: of that one less than a line is left. A malformed line or one with a wrong time ends the count
// with refusal 10, the lower one of both files, the roll's of two with one number. Or 8 where lines and answer do not
// agree: no two files lead there.
pub fn take(
    w: Watching,
    roll: &[u8],
    roll_more: bool,
    acceleration: &[u8],
    acceleration_more: bool,
) -> Took
    ensures value { result ≡ taking w roll.now roll_more acceleration.now acceleration_more }
    ensures roll_in_bounds { (result.roll ≤ length roll.now) × (result.acceleration ≤ length acceleration.now) }
    ensures acceleration_bound { left_over result.next result roll.now acceleration.now < 31 }
{
    let x = roll.len();
    let y = acceleration.len();
    let f = w.roll;
    let g = w.acceleration;
    let before = w.answer;
    if w.over {
        return ended(w, x, y);
    }
    if !sound(f, g, before) {
        return ended(stopped(f, g, Err(Refusal::BrokenState), 0), x, y);
    }
    let s = side_by_side(f, g, before, roll, acceleration);
    if s.ahead {
        let rest = comma_stream::left(acceleration, s.beside, acceleration_more);
        return acceleration_behind(s, rest, roll, roll_more, y);
    }
    let rest = comma_stream::left(roll, s.at, roll_more);
    roll_behind(s, rest, x, acceleration, acceleration_more)
}

fn by_answer(channel: u64, a: Result<Record, Refusal>) -> Result<Record, PairFault>
    ensures { result ≡ end_by channel a }
{
    match a {
        Ok(r) => Ok(r),
        Err(q) => by_refusal(channel, q),
    }
}

// 10 has a line and a channel.
fn by_refusal(channel: u64, q: Refusal) -> Result<Record, PairFault>
    ensures { result ≡ end_by channel (Err q) }
{
    if refusal::number(q) == COMMA_LINE {
        return Err(PairFault::AtLine(refusal::carried(q), q, channel));
    }
    Err(PairFault::Plain(q))
}

fn roll_outside(f: Follow, g: Follow) -> bool
    ensures { result ≡ roll_outside f g }
{
    truth::both(
        f.outside != 0,
        truth::either(g.outside == 0, f.outside <= g.outside),
    )
}

// What the files came to, for a program that goes on from their record.
pub fn came_to(w: Watching) -> Result<Record, PairFault>
    ensures { result ≡ end_of w }
{
    let f = w.roll;
    let g = w.acceleration;
    let a = w.answer;
    if w.over {
        return by_answer(w.channel, a);
    }
    if f.lines != g.lines {
        return Err(PairFault::Plain(Refusal::Unequal));
    }
    if roll_outside(f, g) {
        return Err(PairFault::AtLine(f.outside, Refusal::Sample(f.outside - 1), ROLL));
    }
    if g.outside != 0 {
        return Err(PairFault::AtLine(
            g.outside,
            Refusal::Acceleration(g.outside - 1),
            ACCELERATION,
        ));
    }
    by_answer(0, a)
}

fn put_channel(line: u64, r: Refusal, channel: u64, out: &mut [u8]) -> Finished
    requires { longest_said ≤ length out.old }
    ensures { Puts (refused_of line r channel) out.old result out.new }
{
    let place = text::write_bytes(b"refused\t", out, 0);
    let number = decimal::write_field(line, TAB, out, place);
    let which = decimal::write_field(refusal::number(r), TAB, out, number);
    let end = decimal::write_field(channel, LF, out, which);
    Finished {
        put: end,
        end: desk_line::REFUSED,
    }
}

// The record's line, as that of one file's record.
fn put_record(r: Record, out: &mut [u8]) -> Finished
    requires { longest_said ≤ length out.old }
    ensures { Puts (said_end (Ok r)) out.old result out.new }
{
    comma_count::finish(
        Counting {
            follow: Follow {
                step: 0,
                lines: 0,
                outside: 0,
            },
            answer: Ok(r),
            over: false,
        },
        out,
    )
}

fn put_fault(f: PairFault, out: &mut [u8]) -> Finished
    requires { longest_said ≤ length out.old }
    ensures { Puts (said_end (Err f)) out.old result out.new }
{
    match f {
        PairFault::Plain(q) => desk_line::refuse(0, q, out),
        PairFault::AtLine(line, q, channel) => put_channel(line, q, channel, out),
    }
}

fn put_end(e: Result<Record, PairFault>, out: &mut [u8]) -> Finished
    requires { longest_said ≤ length out.old }
    ensures { Puts (said_end e) out.old result out.new }
{
    match e {
        Ok(r) => put_record(r, out),
        Err(f) => put_fault(f, out),
    }
}

// Writes the line of both files to the start of `out`: samples, crossings, groups, largest set, time of the first
// failure or a dash, exposure; or refused, the line at fault or 0, the refusal's number, after 1 the item, and after 10
// and 2 the channel. Without room for any line nothing is written, and the program ends as failed.
pub fn finish(w: Watching, out: &mut [u8]) -> Finished
    ensures value { result ≡ putting (saying w) out.old }
    ensures out_after { out.new ≡ put_left (saying w) out.old }
{
    if out.len() < desk_line::LONGEST_LINE {
        return desk_line::UNSAID;
    }
    put_end(came_to(w), out)
}
