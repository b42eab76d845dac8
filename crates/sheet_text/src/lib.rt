// The job sheet as a whole, by document 01's section of that name: a text of lines, read line by line into a
// campaign, and what is written about them. A text may be handed over in pieces; where the reading stands goes in by
// value and comes back in the answer.
#![tactic(auto)]

ghost use Rattle.std.specs.Prelude.{◌≡◌, true, ◌+◌, ◌*◌, ◌^◌, ◌≤◌, ◌<◌, min, length, drop};
ghost use Rattle.text.specs.Write.{written};
ghost use Rattle.sheet_line.specs.Form.{longest_sheet_line};
ghost use Rattle.sheet_line.specs.Line.{sound_sheet};
ghost use Rattle.decimal.specs.Lines.{lines_of};
ghost use Rattle.sheet_text.specs.Sheet.{end_text, last_of, left_by, put_by, reading_sheet, reading_end, run_left};
ghost use Rattle.sheet_text.specs.Sheet.{running};
ghost use Rattle.sheet_text.specs.Sheet.{text_of, waits};
ghost use Rattle.sheet_text.specs.Cut.{Passed, place_counted, cut, found};

use campaign_state::Campaign;
use refusal::Refusal;
use sheet_line::Sheet;

const LF: u8 = b'\n';

// The most bytes of a line, with its LF.
const LONGEST_LINE: usize = 64;

// What a piece of a sheet comes to. No `Result`: that more is to come is neither a campaign nor a refusal.
#[derive(Clone, Copy)]
pub enum Reading {
    // The whole sheet was read.
    Read(Campaign),
    // The number of the first bad line, the column of its fault or 0, and its refusal.
    Stopped(u64, u64, Refusal),
    // Where the reading stands, and how many bytes at the piece's end are left unread.
    Waiting(Sheet, usize),
}

// What a reader finds at a place of a text: three ends, since a piece may end within a line.
#[derive(Clone, Copy)]
enum LineFound {
    // A line that was taken, and the place after it.
    Taken(Sheet, usize),
    // The bytes of a line that waits for its LF.
    Waits(usize),
    // A bad line's number, its column, and its refusal.
    Bad(u64, u64, Refusal),
}

// The furthest that a line from `at` on can reach in `len` bytes.
fn furthest(len: usize, at: usize) -> usize
    requires { at ≤ len }
    ensures { result ≡ min len (at + longest_sheet_line) }
{
    if len - at < LONGEST_LINE {
        return len;
    }
    at + LONGEST_LINE
}

// Where the line of `text` that starts at `at` ends, or has as many bytes as a line may have.
fn line_end(text: &[u8], at: usize) -> usize
    requires { at ≤ length text.now }
    ensures { result ≡ at + cut longest_sheet_line (drop at text.now) }
{
    let stop = furthest(text.len(), at);
    for i in at..stop {
        if text[i] == LF {
            return i + 1;
        }
    }
    stop
}

// Whether a line waits for its LF.
fn waits(more: bool, line: &[u8]) -> bool
    ensures { result ≡ waits more line.now }
{
    let n = line.len();
    if !more {
        return false;
    }
    if LONGEST_LINE <= n {
        return false;
    }
    if n == 0 {
        return true;
    }
    line[n - 1] != LF
}

// What stands at `at`, which is inside `text`.
fn find(s: Sheet, text: &[u8], at: usize, more: bool) -> LineFound
    requires { at < length text.now }
    ensures { result ≡ found more text.now at s }
{
    let end = line_end(text, at);
    if waits(more, &text[at..end]) {
        let bytes = end - at;
        return LineFound::Waits(bytes);
    }
    match s.line(&text[at..end]) {
        Ok(t) => LineFound::Taken(t, end),
        Err((line, column, r)) => LineFound::Bad(line, column, r),
    }
}

// What a reading comes to after the last line.
fn last(s: Sheet, more: bool) -> Reading
    ensures { result ≡ last_of more s }
{
    if more {
        return Reading::Waiting(s, 0);
    }
    match s {
        Sheet::Fresh => Reading::Stopped(1, 0, Refusal::Line(1)),
        Sheet::Open(c) => Reading::Read(c),
    }
}

// Whether the reading stands at a campaign that keeps its relations.
fn sound(s: Sheet) -> bool
    ensures { result ≡ sound_sheet s }
{
    match s {
        Sheet::Fresh => true,
        Sheet::Open(c) => campaign_state::sound(c),
    }
}

// Reads the lines of `text` from where the reading stands; `more`: more of the sheet may follow. Ends in the
// campaign, in the first bad line's number and refusal, or waiting for more. A broken campaign is refusal 8.
pub fn read(s: Sheet, text: &[u8], more: bool) -> Reading
    ensures { result ≡ reading_end more text.now s }
{
    if !sound(s) {
        return Reading::Stopped(0, 0, Refusal::BrokenState);
    }
    let mut sheet = s;
    let mut at = 0;
    // No range to go over: a turn's step is the line that `find` found.
    while at < text.len() {
        match find(sheet, text, at, more) {
            LineFound::Taken(t, next) => {
                sheet = t;
                at = next;
            }
            LineFound::Waits(left) => {
                return Reading::Waiting(sheet, left);
            }
            LineFound::Bad(line, column, r) => {
                return Reading::Stopped(line, column, r);
            }
        }
    }
    last(sheet, more)
}

// The place after a text that was written from `at` on, also where it had no room.
fn place_counted(at: usize, w: Result<usize, Refusal>) -> usize
    requires { place_counted at w < 2 ^ 63 }
    ensures { result ≡ place_counted at w }
{
    match w {
        Ok(next) => next,
        Err(r) => at + (refusal::carried(r) as usize),
    }
}

// Writes what a line that was taken gives, and answers the place after it; without room it is only counted.
fn put_sheet(s: Sheet, out: &mut [u8], at: usize) -> usize
    requires { (sound_sheet s ≡ true) × (at + length (text_of s) < 2 ^ 63) }
    ensures value { result ≡ at + length (text_of s) }
    ensures out_after { out.new ≡ written out.old at (text_of s) }
{
    let Sheet::Open(c) = s else {
        return at;
    };
    place_counted(at, sheet_reply::write_record(c, out, at))
}

// Writes what the end of a reading gives, and answers the place after it; without room it is only counted.
fn put_end(end: Reading, out: &mut [u8], at: usize) -> usize
    requires { at + length (end_text end) < 2 ^ 63 }
    ensures value { result ≡ at + length (end_text end) }
    ensures out_after { out.new ≡ written out.old at (end_text end) }
{
    match end {
        Reading::Read(_) => at,
        Reading::Stopped(line, column, r) => place_counted(
            at,
            sheet_reply::write_refused(line, column, r, out, at),
        ),
        Reading::Waiting(_, _) => at,
    }
}

// What lines come to, and the bytes that are written for them.
#[derive(Clone, Copy)]
struct End {
    came: Reading,
    put: usize,
}

// Works through the lines of `text`. What is written for them goes into `out`, from its start, where it has room for
// it all; else it is only counted.
fn pass(s: Sheet, text: &[u8], more: bool, out: &mut [u8]) -> End
    requires { sound_sheet s ≡ true }
    ensures { Passed more text.now s out.old result.came result.put out.new }
{
    let mut sheet = s;
    let mut at = 0;
    let mut put = 0;
    // As in `read`, a turn's step is the line that `find` found.
    while at < text.len() {
        match find(sheet, text, at, more) {
            LineFound::Taken(t, next) => {
                put = put_sheet(t, out, put);
                sheet = t;
                at = next;
            }
            LineFound::Waits(left) => {
                let came = Reading::Waiting(sheet, left);
                return End { came, put };
            }
            LineFound::Bad(line, column, r) => {
                let came = Reading::Stopped(line, column, r);
                let end = put_end(came, out, put);
                return End { came, put: end };
            }
        }
    }
    let came = last(sheet, more);
    let end = put_end(came, out, put);
    End { came, put: end }
}

// Whether `len` bytes are room for anything that `n` bytes of text may give.
fn has_any_room(len: usize, n: usize) -> bool
    ensures { result ≡ true → 5 * n + 35 ≤ len }
{
    if len < 35 {
        return false;
    }
    n <= (len - 35) / 5
}

// The bytes that are written for the lines of `text`.
fn needed(s: Sheet, text: &[u8], more: bool) -> usize
    requires { sound_sheet s ≡ true }
    ensures { result ≡ length (reading_sheet more (lines_of text.now) s).text }
{
    let mut none = [0u8; 1];
    let counted = pass(s, text, more, &mut none);
    counted.put
}

// Where a text leads and how many bytes of answers were written, or the refusal.
pub type Ran = Result<(Reading, usize), Refusal>;

// Reads the lines of `text` as `read` does, and writes into `out`, from its start, what the program writes for them.
// Answers what the reading came to and the bytes that it wrote; or refusal 8; 7 with the bytes needed. They are
// counted first only where `out` might be too short.
pub fn run(s: Sheet, text: &[u8], more: bool, out: &mut [u8]) -> Ran
    ensures value { result ≡ running more text.now s out.old }
    ensures out_after { out.new ≡ run_left more text.now s out.old }
    ensures result_in_bounds { put_by result ≤ length out.old }
    ensures result_in_bounds_2 { (left_by result ≤ length text.now) × (left_by result < longest_sheet_line) }
{
    if !sound(s) {
        return Err(Refusal::BrokenState);
    }
    if !has_any_room(out.len(), text.len()) {
        let bytes = needed(s, text, more);
        if out.len() < bytes {
            return Err(Refusal::Room(bytes as u64));
        }
    }
    let passed = pass(s, text, more, out);
    Ok((passed.came, passed.put))
}
