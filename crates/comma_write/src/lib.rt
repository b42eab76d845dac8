// A comma file written: samples as a text into lent bytes, its length known before a byte is put.
#![tactic(auto)]

ghost use Rattle.std.specs.Prelude.{◌≡◌, ◌+◌, ◌-◌, ◌*◌, ◌^◌, ◌≤◌, leb, length};
ghost use Rattle.text.specs.Write.{laid, laid_by, place_after, written};
ghost use Rattle.decimal.specs.Decimal.{longest};
ghost use Rattle.comma_line.specs.Line.{sample_text};
ghost use Rattle.comma_line.specs.Text.{text_of};
ghost use Rattle.comma_write.specs.Answers.{writing_comma};

use refusal::Refusal;

const LF: u8 = b'\n';

// The longest time, of 12 digits.
const LONGEST_TIME: u64 = 999_999_999_999;

// The bytes of a line.
fn line_length(time: u64, x: i32) -> usize
    ensures { (result ≡ length (sample_text time x)) × (result ≤ 34) }
{
    decimal::digits(time) + degrees::degrees_length(x) + 2
}

// The bytes of all lines.
fn text_length(samples: &[i32], step: u64) -> u64
    requires { (step ≤ 10000) × (length samples.now ≤ 1000000000000) }
    ensures { result ≡ length (text_of step samples.now) }
{
    let mut time: u64 = 0;
    let mut total: u64 = 0;
    for x in samples {
        total += line_length(time, *x) as u64;
        time += step;
    }
    total
}

// Puts a line into `out` from `at` on.
fn put_line(time: u64, x: i32, out: &mut [u8], at: usize) -> usize
    requires { at + length (sample_text time x) ≤ length out.old }
    ensures value { result ≡ place_after out.old at (sample_text time x) }
    ensures out_after { out.new ≡ written out.old at (sample_text time x) }
{
    let comma = decimal::write_number(time, out, at);
    let roll = text::write_byte(comma_line::COMMA, out, comma);
    let feed = degrees::write_degrees(x, out, roll);
    text::write_byte(LF, out, feed)
}

// Puts all lines into `out`.
fn put_text(samples: &[i32], step: u64, out: &mut [u8])
    requires { (step ≤ 10000) × (length samples.now ≤ 1000000000000)
        × (length (text_of step samples.now) ≤ length out.old) }
    ensures { out.new ≡ laid out.old 0 (text_of step samples.now) }
{
    let mut time: u64 = 0;
    let mut at = 0;
    for x in samples {
        at = put_line(time, *x, out, at);
        time += step;
    }
}

// Whether the last of `n` times needs more than 12 digits.
fn too_long(n: u64, step: u64) -> bool
    requires { 1 ≤ step }
    ensures { result ≡ leb (10 ^ longest) ((n - 1) * step) }
{
    if n == 0 {
        return false;
    }
    n - 1 > LONGEST_TIME / step
}

// Writes samples as a text into `out`, whose rest stays, and answers its bytes; or refusal 1, 2 with the sample's
// place, 3 where the last time needs more than 12 digits, 7 with the bytes needed, and `out` as it stood.
pub fn write(samples: &[i32], step: u64, out: &mut [u8]) -> Result<u64, Refusal>
    ensures value { result ≡ writing_comma step samples.now out.old }
    ensures out_after { out.new ≡ laid_by result (text_of step samples.now) out.old }
{
    if !comma_line::step_in_range(step) {
        return Err(Refusal::Item(1));
    }
    let bad = sample_range::first_bad(samples);
    if bad < samples.len() {
        return Err(Refusal::Sample(bad as u64));
    }
    if too_long(samples.len() as u64, step) {
        return Err(Refusal::TooLong);
    }
    let needed = text_length(samples, step);
    if (out.len() as u64) < needed {
        return Err(Refusal::Room(needed));
    }
    put_text(samples, step, out);
    Ok(needed)
}
