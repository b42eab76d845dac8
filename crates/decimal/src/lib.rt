// Numbers in text, by document 01, "The job sheet": decimal, 1 to 12 digits, no leading zero but for 0 itself. The
// reader makes one pass over a number's bytes and divides nothing; the writer stores a number's digits from the last
// to the first.
#![tactic(auto)]

ghost use Rattle.std.specs.Prelude.{◌≡◌, cond, ◌+◌, ◌%◌, ◌≤◌, max, min, length, drop, get_or};
ghost use Rattle.text.specs.Write.{written, place_after};
ghost use Rattle.decimal.specs.Decimal.{zero_byte, longest, is_digit, is_number, leading_digits, value_of, digits_of};
ghost use Rattle.decimal.specs.Decimal.{widest};
ghost use Rattle.decimal.specs.Field.{ending, field_text};
ghost use Rattle.decimal.specs.Leading.{leading, leading_at, stands_at};

// The byte of the digit 0.
const ZERO: u8 = b'0';

// The most digits of a number.
const LONGEST: usize = 12;

// A number that stands at a place, and the place after it; nothing where none does.
pub type Lead = Option<(u64, usize)>;

// Reads the number of `s` that starts at `at` and goes up to the first byte that is no digit, or to the end of `s`.
pub fn leading_at(s: &[u8], at: usize) -> Lead
    ensures { result ≡ leading_at s.now at }
{
    let run = run_at(s, at);
    let end = run.end;
    if digit_at(s, end) {
        return None;
    }
    if end == at {
        return None;
    }
    if end - at == 1 {
        return Some((run.value, end));
    }
    if s[at] == ZERO {
        return None;
    }
    Some((run.value, end))
}

// The number that the whole of `s` is; `other` where it is none.
pub fn number_or(s: &[u8], other: u64) -> u64
    ensures { result ≡ cond (is_number s.now) (value_of s.now) other }
{
    let Some((v, end)) = leading_at(s, 0) else {
        return other;
    };
    if end < s.len() {
        return other;
    }
    v
}

// Whether the byte `b` stands at `at`.
pub fn stands(s: &[u8], at: usize, b: u8) -> bool
    ensures { result ≡ stands_at s.now at b }
{
    if s.len() <= at {
        return false;
    }
    s[at] == b
}

// Whether a digit stands at `at`.
fn digit_at(s: &[u8], at: usize) -> bool
    ensures { result ≡ is_digit (get_or s.now at 0) }
{
    if s.len() <= at {
        return false;
    }
    is_digit(s[at])
}

// The digits that stand at a place, at most LONGEST of them: what they are worth, and the place after them.
#[derive(Clone, Copy)]
pub struct Run {
    pub value: u64,
    pub end: usize,
}

pub fn run_at(s: &[u8], at: usize) -> Run
    ensures value_value { result.value ≡ value_of (leading_digits longest (drop at s.now)) }
    ensures end_value { result.end ≡ at + length (leading_digits longest (drop at s.now)) }
{
    let stop = last_place(s.len(), at);
    let mut value: u64 = 0;
    for i in at..stop {
        let b = s[i];
        if !is_digit(b) {
            return Run { value, end: i };
        }
        value = value * 10 + ((b - ZERO) as u64);
    }
    Run { value, end: stop }
}

// Where the digits from `at` on end at the latest, in `len` bytes.
fn last_place(len: usize, at: usize) -> usize
    ensures { result ≡ max at (min len (at + longest)) }
{
    if len <= at {
        return at;
    }
    if len - at < LONGEST {
        return len;
    }
    at + LONGEST
}

// The place of the first byte from `at` on that is no digit.
pub fn digits_end(s: &[u8], at: usize) -> usize
    ensures { result ≡ at + length (leading (drop at s.now)) }
{
    for i in at..s.len() {
        if !is_digit(s[i]) {
            return i;
        }
    }
    at.max(s.len())
}

// Whether `b` is a decimal digit.
pub fn is_digit(b: u8) -> bool
    ensures { result ≡ is_digit b }
{
    if b < ZERO {
        return false;
    }
    b < ZERO + 10
}

// How many digits the decimal text of `v` has.
#[tactic(auto, using(crate::proofs::Text::length_one, crate::proofs::Text::length_reached))]
pub fn digits(v: u64) -> usize
    ensures value { result ≡ length (digits_of v) }
    ensures upper_bound { result ≤ widest }
{
    match v.checked_ilog10() {
        None => 1,
        Some(power) => power as usize + 1,
    }
}

// Writes the decimal text of `v` into `out` from `at` on. Answers the place after it, or `at` where it has no room
// and `out` is kept.
pub fn write_number(v: u64, out: &mut [u8], at: usize) -> usize
    ensures value { result ≡ place_after out.old at (digits_of v) }
    ensures out_after { out.new ≡ written out.old at (digits_of v) }
{
    let count = digits(v);
    if !text::has_room(out.len(), at, count) {
        return at;
    }
    let mut rest = v;
    for i in (at..at + count).rev() {
        out[i] = last_digit(rest);
        rest /= 10;
    }
    at + count
}

// Writes `v` and the byte `end` after it into `out` from `at` on, both or neither.
pub fn write_field(v: u64, end: u8, out: &mut [u8], at: usize) -> usize
    ensures value { result ≡ place_after out.old at (field_text v end) }
    ensures out_after { out.new ≡ written out.old at (field_text v end) }
{
    if !text::has_room(out.len(), at, digits(v) + 1) {
        return at;
    }
    let next = write_number(v, out, at);
    text::write_byte(end, out, next)
}

// Ends a line: writes `number`, and after a tab `more` where it is there, and LF into `out` from `at` on, all or
// nothing.
pub fn end_line(number: u64, more: Option<u64>, out: &mut [u8], at: usize) -> usize
    ensures value { result ≡ place_after out.old at (ending number more) }
    ensures out_after { out.new ≡ written out.old at (ending number more) }
{
    let Some(value) = more else {
        return write_field(number, b'\n', out, at);
    };
    if !text::has_room(out.len(), at, digits(number) + digits(value) + 2) {
        return at;
    }
    let next = write_field(number, b'\t', out, at);
    write_field(value, b'\n', out, next)
}

// The byte of the last digit of `v`.
pub fn last_digit(v: u64) -> u8
    ensures { result ≡ zero_byte + v % 10 }
{
    ZERO + ((v % 10) as u8)
}
