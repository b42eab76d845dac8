// Degrees in text, by document 02 [1]: a minus or none, whole degrees as a number of the sheet, and a point with one
// to three digits or none. A sample is in thousandths of a degree.
#![tactic(auto)]

ghost use Rattle.std.specs.Prelude.{◌≡◌, cond, ◌∷◌, ◌+◌, ◌*◌, ◌≤◌, ◌<◌, length, drop, eqb, leb, pos};
ghost use Rattle.degrees.specs.Degrees.{point, sign_length, degrees_at, size_at, sign, signed, three_digits};
ghost use Rattle.degrees.specs.Degrees.{degrees_text, longest_degrees, largest_size};
ghost use Rattle.text.specs.Write.{written, place_after};

const MINUS: u8 = b'-';

const POINT: u8 = b'.';

// What degrees say: whether they are below zero, their size in thousandths, and the place after them.
pub type Degrees = Option<(bool, u64, usize)>;

// Reads the degrees of `s` that start at `at`.
pub fn degrees_at(s: &[u8], at: usize) -> Degrees
    ensures { result ≡ degrees_at s.now at }
{
    let from = past_minus(s, at);
    size_at(s, from, from != at)
}

// The place after the minus that may stand at `at`.
pub fn past_minus(s: &[u8], at: usize) -> usize
    ensures { result ≡ at + sign_length (drop at s.now) }
{
    if decimal::stands(s, at, MINUS) {
        return at + 1;
    }
    at
}

// Reads degrees without a sign, `minus` being the sign that stood before them.
fn size_at(s: &[u8], at: usize, minus: bool) -> Degrees
    ensures { result ≡ size_at s.now at minus }
{
    let (whole, end) = decimal::leading_at(s, at)?;
    if !decimal::stands(s, end, POINT) {
        return Some((minus, whole * 1000, end));
    }
    let run = decimal::run_at(s, end + 1);
    let count = run.end - (end + 1);
    if count == 0 {
        return None;
    }
    if count > 3 {
        return None;
    }
    Some((minus, whole * 1000 + filled(run.value, count), run.end))
}

// One to three digits after a point, as thousandths.
fn filled(value: u64, count: usize) -> u64
    requires { value < 1000 }
    ensures { result ≡ cond (eqb count 1) (value * 100) (cond (eqb count 2) (value * 10) value) }
{
    if count == 1 {
        return value * 100;
    }
    if count == 2 {
        return value * 10;
    }
    value
}

// Puts the minus of `x` into `out` at `at`, where it has one.
fn put_sign(x: i32, out: &mut [u8], at: usize) -> usize
    requires { at ≤ length out.old }
    ensures value { result ≡ place_after out.old at (sign x) }
    ensures out_after { out.new ≡ written out.old at (sign x) }
{
    if x < 0 {
        return text::write_byte(MINUS, out, at);
    }
    at
}

// Puts the point and the three decimals of a number of thousandths into `out` from `at` on.
fn put_decimals(n: u64, out: &mut [u8], at: usize) -> usize
    ensures value { result ≡ place_after out.old at (point ∷ three_digits n) }
    ensures out_after { out.new ≡ written out.old at (point ∷ three_digits n) }
{
    let bytes = [
        POINT,
        decimal::last_digit(n / 100),
        decimal::last_digit(n / 10),
        decimal::last_digit(n),
    ];
    text::write_bytes(&bytes, out, at)
}

// The bytes of a sample's degrees.
pub fn degrees_length(x: i32) -> usize
    ensures value { result ≡ length (degrees_text x) }
    ensures upper_bound { result ≤ longest_degrees }
{
    let whole = decimal::digits(sample_size::magnitude(x) as u64 / 1000);
    if x < 0 {
        return whole + 5;
    }
    whole + 4
}

// Writes the degrees of a sample into `out` from `at` on: always three decimals, a minus only below zero. Answers the
// place after them, or `at` where they have no room and `out` is kept.
pub fn write_degrees(x: i32, out: &mut [u8], at: usize) -> usize
    ensures value { result ≡ place_after out.old at (degrees_text x) }
    ensures out_after { out.new ≡ written out.old at (degrees_text x) }
{
    if !text::has_room(out.len(), at, degrees_length(x)) {
        return at;
    }
    let size = sample_size::magnitude(x) as u64;
    let whole = put_sign(x, out, at);
    let point = decimal::write_number(size / 1000, out, whole);
    put_decimals(size, out, point)
}

// The sample of a sign and of thousandths in range.
pub fn sample(minus: bool, size: u64) -> i32
    ensures { result ≡ cond (leb size largest_size) (signed minus size) (pos 0) }
{
    if size > 1_000_000 {
        return 0;
    }
    let x = size as i32;
    if minus { -x } else { x }
}
