// A comma file taken in, by one reader: a whole text into lent samples, all its lines judged before a sample is put
// (`read`), or the right lines that a text starts with, each put as it is judged (`take`).
#![tactic(auto)]

ghost use Rattle.std.specs.Prelude.{◌≡◌, ◌+◌, ◌-◌, ◌%◌, ◌^◌, ◌<◌, ◌≤◌, true, ◌&&◌, [], ◌∷◌, length, take, drop, if◌then◌else◌, bit_and, bit_xor, nat_eq, slice_set};
ghost use Rattle.std.proofs.lemmas.List.Edits.{sets};
ghost use Rattle.decimal.specs.Decimal.{all_digits, value_of, digits_of};
ghost use Rattle.decimal.specs.Lines.{lines_of};
ghost use Rattle.degrees.specs.Degrees.{size, signed};
ghost use Rattle.comma_word.specs.Dial.{dial, turned};
ghost use Rattle.comma_word.specs.Plain.{Plain};
ghost use Rattle.comma_word.specs.Word.{word, Small};
ghost use Rattle.comma_line.specs.Line.{right};
ghost use Rattle.comma_line.specs.Text.{samples_of};
ghost use Rattle.comma_word.specs.Form.{mask, bits, more};
ghost use Rattle.comma_read.specs.Forms.{plus_short};
ghost use Rattle.comma_read.specs.Roll.{PlainRoll, AnyRoll, roll_sample};
ghost use Rattle.comma_read.specs.Plain.{Narrow, PlainLines, PlainPut};
ghost use Rattle.comma_read.specs.Answers.{reading_comma, filled_by};
ghost use Rattle.comma_read.specs.Taken.{lines_taken, taken_of, put_by};
ghost use Rattle.comma_read.specs.Survey.{AllGood, surveyed};

use refusal::Refusal;

const LF: u8 = b'\n';

const MINUS: u8 = b'-';

const POINT: u8 = b'.';

// The most bytes of a plain line whose time has eight digits at most.
const ROOM: usize = 17;

// The times before it have eight digits with any step more.
const LATEST: u64 = 99_990_000;

// After so many lines no time has 12 digits.
const MOST_LINES: u64 = 1_000_000_000_000;

// Plain lines one after the other: the place after them, and their number.
#[derive(Clone, Copy)]
struct Run {
    at: usize,
    lines: u64,
}

// A step in range.
#[derive(Clone, Copy)]
struct Step {
    ms: u64,
    ghost some: { 1 ≤ ms },
    ghost few: { ms ≤ 10000 },
}

// ---- plain lines: a time as wide as the last one, and plain degrees
// The time that is due in a line, and how wide the last one was: its own digits are as many or more.
#[derive(Clone, Copy)]
struct Due {
    time: u64,
    width: usize,
    ghost narrow: { Narrow width time },
}

impl Due {
    // The time of the first line, or of one after lines whose times were not looked at.
    #[tactic(auto, using(decimal::proofs::Text::digits_some))]
    fn first(time: u64) -> Due
        ensures { result.time ≡ time }
    {
        Due { time, width: 1 }
    }

    // The time so much later.
    fn after(self, by: u64) -> Due
        requires { self.time + by < 18446744073709551616 }
        ensures { result.time ≡ self.time + by }
    {
        Due {
            time: self.time + by,
            width: self.width,
        }
    }

    // As wide as it is in the line at `at`, if that is the line of this time: as wide as the last time, or else as
    // wide as its digits.
    fn in_line(self, text: &[u8], at: usize) -> Due
        requires { at + self.width < length text.now }
        ensures { (result.time ≡ self.time)
            × (right self.time (drop at text.now) ≡ true → result.width ≡ length (digits_of self.time)) }
    {
        if text[at + self.width] == comma_line::COMMA {
            return self;
        }
        Due {
            time: self.time,
            width: decimal::digits(self.time),
        }
    }

    // The same where the text may end before.
    fn at(self, text: &[u8], at: usize) -> Due
        requires { at ≤ length text.now }
        ensures { (result.time ≡ self.time)
            × (right self.time (drop at text.now) ≡ true → result.width ≡ length (digits_of self.time)) }
    {
        if text.len() <= at + self.width {
            return Due {
                time: self.time,
                width: decimal::digits(self.time),
            };
        }
        self.in_line(text, at)
    }
}

// Four bytes, and the eight bytes of `s` from `at` on, side by side in one number. Joined one by one they are one
// load to the compiler.
fn four(a: u8, b: u8, c: u8, d: u8) -> u64
    ensures { (result ≡ word (a ∷ b ∷ c ∷ d ∷ [])) × (result < 4294967296) × (a < 256) × (b < 256) × (c < 256)
        × (d < 256) }
{
    ((a as u64 * 256 + b as u64) * 256 + c as u64) * 256 + d as u64
}

fn eight(s: &[u8], at: usize) -> u64
    requires { at + 8 ≤ length s.now }
    ensures { (result ≡ word (take 8 (drop at s.now))) × Small s.now at 8 }
{
    four(s[at], s[at + 1], s[at + 2], s[at + 3]) * 4294967296
        + four(s[at + 4], s[at + 5], s[at + 6], s[at + 7])
}

// Whether eight bytes side by side are held by a form: of its bits nothing is left under its mask, nor with the
// digits moved on.
fn held(v: u64, bits: u64, mask: u64, more: u64) -> bool
    ensures { result ≡ true → (bit_and (bit_xor v bits) mask ≡ 0)
        × (bit_and ((bit_xor v bits + more) % 2 ^ 64) mask ≡ 0) }
{
    let x = v ^ bits;
    if x & mask != 0 {
        return false;
    }
    std::num::wrapping_add_u64(x, more) & mask == 0
}

// Whether it is ,4.250 and LF.
fn plus_short(v: u64) -> bool
    ensures { result ≡ true → (bit_and (bit_xor v (bits plus_short)) (mask plus_short) ≡ 0)
        × (bit_and ((bit_xor v (bits plus_short) + more plus_short) % 2 ^ 64) (mask plus_short) ≡ 0) }
{
    held(
        v,
        0x2C30_2E30_3030_0A00,
        0xFFF0_FFF0_F0F0_FF00,
        0x0006_0006_0606_0000,
    )
}

// The comma at `c`, plain degrees and their LF: twice their bytes, and one more where a minus stands before the
// degrees; 0 where others stand there. A first digit of two is no 0: ,10.000 passes ,09.999, and so does ,1.000; what
// does not is below zero, where ,-10.000 passes ,-09.999, or less than a degree. The eight bytes at the comma are
// held against ,41.500 LF and ,4.250 LF, or against ,-41.500 and ,-4.250 LF.
fn plain_roll(s: &[u8], c: usize) -> usize
    requires { c + 9 ≤ length s.now }
    ensures { 1 ≤ result → PlainRoll s.now c result }
{
    let v = eight(s, c);
    if v > 0x2C30_392E_3939_390A {
        if held(
            v,
            0x2C30_302E_3030_300A,
            0xFFF0_F0FF_F0F0_F0FF,
            0x0006_0600_0606_0600,
        ) {
            return 16;
        }
        if plus_short(v) {
            return 14;
        }
        return 0;
    }
    if held(
        v,
        0x2C2D_3030_2E30_3030,
        0xFFFF_F0F0_FFF0_F0F0,
        0x0000_0606_0006_0606,
    ) {
        if truth::both(v > 0x2C2D_3039_2E39_3939, s[c + 8] == LF) {
            return 19;
        }
        return 0;
    }
    if held(
        v,
        0x2C2D_302E_3030_300A,
        0xFFFF_F0FF_F0F0_F0FF,
        0x0000_0600_0606_0600,
    ) {
        return 17;
    }
    if plus_short(v) {
        return 14;
    }
    0
}

// No line.
fn no_lines(at: usize) -> Run
    ensures { (result.at ≡ at) × (result.lines ≡ 0) }
{
    Run { at, lines: 0 }
}

// The last two digits of `n`, one a byte.
fn two_digits(n: u64) -> u64
    ensures { result ≡ dial 2 n }
{
    n / 10 % 10 * 0x100 + n % 10
}

// The last four.
fn four_digits(n: u64) -> u64
    ensures { result ≡ dial 4 n }
{
    two_digits(n / 100) * 0x1_0000 + two_digits(n)
}

// The last eight.
fn eight_digits(n: u64) -> u64
    ensures { result ≡ dial 8 n }
{
    four_digits(n / 10000) * 0x1_0000_0000 + four_digits(n)
}

// The digits `q` moved on by `d`, whose bytes stand 246 above its digits: a carry into the next byte is one into the
// next digit, and a byte that makes none keeps its top bit, by which the 246 is found and taken away.
fn moved_on(q: u64, d: u64) -> u64
    ensures { result ≡ turned q d }
{
    let x = std::num::wrapping_add_u64(q, d);
    std::num::wrapping_sub_u64(x, ((x & 0x8080_8080_8080_8080) >> 7) * 0xF6)
}

// The plain lines of a text from `at` on, the first of the time that is due, whose times are as wide. The digits of
// the time that is due are compared with a line's all at once, and moved on by the step. They are eight at most, and
// so are those of the next time where this one is before the latest. Text, place, time and step stay side by side here
// and below: a struct that lends the text would be named by its entry in each promise, and the last two are types that
// say what is asked of them.
fn plain_run(text: &[u8], at: usize, due: Due, step: Step) -> Run
    requires { (at + 17 ≤ length text.now) × (due.width ≤ 8) }
    ensures { PlainLines text.now step.ms at due.time result.at result.lines }
{
    let last = text.len() - ROOM;
    let width = due.width;
    let shift = 64 - 8 * width;
    let zeros = 0x3030_3030_3030_3030u64 >> shift;
    let by = eight_digits(step.ms) + 0xF6F6_F6F6_F6F6_F6F6;
    let mut digits = eight_digits(due.time);
    let mut time = due.time;
    let mut place = at;
    let mut lines: u64 = 0;
    // No range to go over: a turn's step is the line that `plain_roll` found.
    while time < LATEST {
        if last < place {
            return Run { at: place, lines };
        }
        if eight(text, place) >> shift != digits + zeros {
            return Run { at: place, lines };
        }
        let roll = plain_roll(text, place + width);
        if roll == 0 {
            return Run { at: place, lines };
        }
        place = place + width + roll / 2;
        digits = moved_on(digits, by);
        time += step.ms;
        lines += 1;
    }
    Run { at: place, lines }
}

// Whether a plain line may stand at `at`, its time so wide: looked at before the digits are laid out, so that a file
// whose lines are not plain pays for no more.
fn looks_plain(text: &[u8], at: usize, width: usize) -> bool
    ensures { result ≡ true → (at + 17 ≤ length text.now) × (width ≤ 8) }
{
    if 8 < width {
        return false;
    }
    if !text::has_room(text.len(), at, ROOM) {
        return false;
    }
    comma_word::bytes_at(text, degrees::past_minus(text, at + width + 1)) != 0
}

// The same, where the first is looked at before.
fn plain_lines(text: &[u8], at: usize, due: Due, step: Step) -> Run
    ensures { PlainLines text.now step.ms at due.time result.at result.lines }
{
    if !looks_plain(text, at, due.width) {
        return no_lines(at);
    }
    plain_run(text, at, due, step)
}

// ---- the two passes
// One sample more: the samples before the first out of range, `sound` of the `count` before it.
fn tallied(sound: u64, count: u64, good: bool) -> u64
    requires { (sound ≤ count) × (count < 18446744073709551615) }
    ensures { result ≡ (if nat_eq sound count && good then sound + 1 else sound) }
{
    truth::pick(truth::both(sound == count, good), sound + 1, sound)
}

// The same for many samples in range.
fn carried(sound: u64, count: u64, lines: u64) -> u64
    requires { sound + lines < 18446744073709551616 }
    ensures { result ≡ (if nat_eq sound count then sound + lines else sound) }
{
    truth::pick(sound == count, sound + lines, sound)
}

// The plain lines that the text starts with: one run for each width of the times.
fn plain_front(text: &[u8], step: Step) -> Run
    ensures { PlainLines text.now step.ms 0 0 result.at result.lines }
{
    let mut at = 0;
    let mut passed: u64 = 0;
    let mut due = Due::first(0);
    // No range to go over: a turn's step is the run that `plain_lines` found.
    while at < text.len() {
        due = due.at(text, at);
        let run = plain_lines(text, at, due, step);
        if run.lines == 0 {
            return Run { at, lines: passed };
        }
        at = run.at;
        passed += run.lines;
        due = due.after(run.lines * step.ms);
    }
    Run { at, lines: passed }
}

// What all lines of a text come to: the number of lines, and the place of the first sample out of range, or that
// number; or else the number of lines before the first wrong one.
type LinesFound = Result<(u64, u64), u64>;

// Judges all lines of `text`, those of its front being plain: one that may be of any form, and plain ones together.
fn survey(text: &[u8], step: Step, front: Run) -> LinesFound
    requires { PlainLines text.now step.ms 0 0 front.at front.lines }
    ensures { result ≡ surveyed step.ms (lines_of text.now) }
{
    let mut at = front.at;
    let mut count = front.lines;
    let mut due = Due::first(front.lines * step.ms);
    let mut sound = front.lines;
    // No range to go over: a turn's step is a run and the line after it.
    while at < text.len() {
        due = due.at(text, at);
        let run = plain_lines(text, at, due, step);
        sound = carried(sound, count, run.lines);
        count += run.lines;
        due = due.after(run.lines * step.ms);
        at = run.at;
        if text.len() <= at {
            return Ok((count, sound));
        }
        let Some((_, size, end)) = comma_line::line_at(text, at, due.time) else {
            return Err(count);
        };
        sound = tallied(sound, count, size <= comma_line::SAMPLE_LIMIT as u64);
        count += 1;
        due = due.after(step.ms);
        at = end;
    }
    Ok((count, sound))
}

// What four digits are worth; their zeros are taken off at once.
fn four_value(a: u8, b: u8, c: u8, d: u8) -> u64
    requires { all_digits (a ∷ b ∷ c ∷ d ∷ []) ≡ true }
    ensures { (result ≡ value_of (a ∷ b ∷ c ∷ d ∷ [])) × (result < 10000) }
{
    a as u64 * 1000 + b as u64 * 100 + c as u64 * 10 + d as u64 - 53328
}

// The thousandths of plain degrees of so many bytes.
fn plain_size(s: &[u8], at: usize, bytes: usize) -> u64
    requires { Plain s.now at bytes }
    ensures { (result ≡ size (drop at s.now)) × (result < 100000) }
{
    if bytes == 5 {
        return four_value(s[at], s[at + 2], s[at + 3], s[at + 4]);
    }
    s[at] as u64 * 10000 + four_value(s[at + 1], s[at + 3], s[at + 4], s[at + 5]) - 480000
}

// So many thousandths as a sample. No call of `degrees::sample`, which tests the range of each again.
fn signed_size(minus: bool, size: u64) -> i32
    requires { size < 100000 }
    ensures { result ≡ signed minus size }
{
    let x = size as i32;
    if minus { -x } else { x }
}

// The sample of the plain degrees after the comma at `c`, of which `plain_roll` said so much: each of its four
// answers goes a way of its own.
fn plain_sample(s: &[u8], c: usize, roll: usize) -> i32
    requires { PlainRoll s.now c roll }
    ensures { result ≡ roll_sample s.now c roll }
{
    if roll == 16 {
        return signed_size(false, plain_size(s, c + 1, 6));
    }
    if roll == 14 {
        return signed_size(false, plain_size(s, c + 1, 5));
    }
    if roll == 19 {
        return signed_size(true, plain_size(s, c + 2, 6));
    }
    signed_size(true, plain_size(s, c + 2, 5))
}

// Which of the four forms the plain degrees after the comma at `c` have: those of a plain line are told apart by two
// bytes.
fn form_of(s: &[u8], c: usize) -> usize
    requires { AnyRoll s.now c }
    ensures { PlainRoll s.now c result }
{
    if s[c + 1] == MINUS {
        if s[c + 3] == POINT {
            return 17;
        }
        return 19;
    }
    if s[c + 2] == POINT {
        return 14;
    }
    16
}

// Puts `x` into a place that there is.
fn store(x: i32, samples: &mut [i32], i: usize)
    requires { i < length samples.old }
    ensures { samples.new ≡ slice_set samples.old i x }
{
    samples[i] = x;
}

// Puts the samples of the front, whose lines are plain.
fn fill_front(text: &[u8], step: Step, front: Run, samples: &mut [i32])
    requires { AllGood step.ms (lines_of text.now) × PlainLines text.now step.ms 0 0 front.at front.lines
        × (front.lines ≤ length samples.old) }
    ensures { sets samples.new front.lines (samples_of (lines_of (drop front.at text.now)))
        ≡ sets samples.old 0 (samples_of (lines_of text.now)) }
{
    let mut at = 0;
    let mut due = Due::first(0);
    for count in 0..front.lines {
        due = due.in_line(text, at);
        let comma = at + due.width;
        let roll = form_of(text, comma);
        store(plain_sample(text, comma, roll), samples, count as usize);
        at = comma + roll / 2;
        due = due.after(step.ms);
    }
}

// Puts the samples of the lines after the front, which are right and in range. Their times are passed over.
fn fill_rest(text: &[u8], step: Step, front: Run, samples: &mut [i32])
    requires { AllGood step.ms (lines_of text.now) × PlainLines text.now step.ms 0 0 front.at front.lines }
    ensures { samples.new
        ≡ sets samples.old front.lines (samples_of (lines_of (drop front.at text.now))) }
{
    let mut at = front.at;
    let mut due = Due::first(front.lines * step.ms);
    let mut count = front.lines as usize;
    // No range to go over: a turn's step is the line whose degrees were found.
    while at < text.len() {
        due = due.at(text, at);
        let roll = at + due.width + 1;
        let from = degrees::past_minus(text, roll);
        let bytes = comma_word::bytes_at(text, from);
        if bytes == 0 {
            let Some((minus, size, next)) = degrees::degrees_at(text, roll) else {
                return;
            };
            text::put(degrees::sample(minus, size), samples, count);
            count += 1;
            due = due.after(step.ms);
            at = next + 1;
            continue;
        }
        text::put(
            degrees::sample(from != roll, comma_word::size_at(text, from, bytes)),
            samples,
            count,
        );
        count += 1;
        due = due.after(step.ms);
        at = from + bytes + 1;
    }
}

// Puts the samples of a text whose lines are all right and in range.
fn fill(text: &[u8], step: Step, front: Run, samples: &mut [i32])
    requires { AllGood step.ms (lines_of text.now) × PlainLines text.now step.ms 0 0 front.at front.lines
        × (front.lines ≤ length samples.old) }
    ensures { samples.new ≡ sets samples.old 0 (samples_of (lines_of text.now)) }
{
    fill_front(text, step, front, samples);
    fill_rest(text, step, front, samples);
}

// Reads a text into `samples`, thousandths of a degree, whose rest stays, and answers their number; or refusal 1, 10
// with the line number, 2 with the sample's place, 7 with the number of samples, each judged over all lines, and
// `samples` as it stood.
pub fn read(text: &[u8], step: u64, samples: &mut [i32]) -> Result<u64, Refusal>
    ensures value { result ≡ reading_comma step text.now (length samples.old) }
    ensures samples_after { samples.new
        ≡ filled_by result (samples_of (lines_of text.now)) samples.old }
{
    if !comma_line::step_in_range(step) {
        return Err(Refusal::Item(1));
    }
    let step = Step { ms: step };
    let front = plain_front(text, step);
    // No `map_err`: a closure would not know that `lines + 1` fits.
    match survey(text, step, front) {
        Err(lines) => Err(Refusal::CommaLine(lines + 1)),
        Ok((count, sound)) => {
            if sound < count {
                return Err(Refusal::Sample(sound));
            }
            if (samples.len() as u64) < count {
                return Err(Refusal::Room(count));
            }
            fill(text, step, front, samples);
            Ok(count)
        }
    }
}

// ---- the right lines of a text, one pass
// Plain lines as `plain_run` has them, the sample of each put as it is judged, from `from` on: as many as have a place.
fn plain_put(text: &[u8], at: usize, due: Due, step: Step, samples: &mut [i32], from: usize) -> Run
    requires { (at + 17 ≤ length text.now) × (due.width ≤ 8)
        × (from ≤ length samples.old) }
    ensures plain_put { PlainPut text.now step.ms at due.time samples.old from result.at result.lines
        samples.new }
    ensures lines_in_bounds { from + result.lines ≤ length samples.old }
{
    let last = text.len() - ROOM;
    let places = (samples.len() - from) as u64;
    let width = due.width;
    let shift = 64 - 8 * width;
    let zeros = 0x3030_3030_3030_3030u64 >> shift;
    let by = eight_digits(step.ms) + 0xF6F6_F6F6_F6F6_F6F6;
    let mut digits = eight_digits(due.time);
    let mut time = due.time;
    let mut place = at;
    let mut lines: u64 = 0;
    // No range to go over: a turn's step is the line that `plain_roll` found. No loop in common with `plain_run`: a
    // trait for what is done with a line, and its law, are no plainer than the few lines that both have.
    while lines < places {
        if !truth::both(time < LATEST, place <= last) {
            break;
        }
        if eight(text, place) >> shift != digits + zeros {
            break;
        }
        let roll = plain_roll(text, place + width);
        if roll == 0 {
            break;
        }
        store(
            plain_sample(text, place + width, roll),
            samples,
            from + lines as usize,
        );
        place = place + width + roll / 2;
        digits = moved_on(digits, by);
        time += step.ms;
        lines += 1;
    }
    Run { at: place, lines }
}

// The same, where the first is looked at before.
fn plain_taken(
    text: &[u8],
    at: usize,
    due: Due,
    step: Step,
    samples: &mut [i32],
    from: usize,
) -> Run
    requires { from ≤ length samples.old }
    ensures plain_put { PlainPut text.now step.ms at due.time samples.old from result.at result.lines
        samples.new }
    ensures lines_in_bounds { from + result.lines ≤ length samples.old }
{
    if !looks_plain(text, at, due.width) {
        return no_lines(at);
    }
    plain_put(text, at, due, step, samples, from)
}

// What taking a text's right lines comes to: their number, their bytes, and the samples before the first out of range;
// or the refusal.
pub type LinesTaken = Result<(u64, usize, u64), Refusal>;

// The right lines at a step in range, the first of them having a time: plain ones together, then one of any form.
fn right_lines(text: &[u8], step: Step, before: u64, samples: &mut [i32]) -> LinesTaken
    requires { before ≤ 1000000000000 }
    ensures value { result ≡ lines_taken step.ms before text.now (length samples.old) }
    ensures samples_after { samples.new ≡ put_by result text.now samples.old }
    ensures result_bound { before + taken_of result < 18446744073709551616 }
{
    let mut at = 0;
    let mut count: u64 = 0;
    let mut due = Due::first(before * step.ms);
    let mut sound: u64 = 0;
    // No range to go over: a turn's step is a run and the line after it.
    while (count as usize) < samples.len() {
        due = due.at(text, at);
        let run = plain_taken(text, at, due, step, samples, count as usize);
        sound = carried(sound, count, run.lines);
        count += run.lines;
        due = due.after(run.lines * step.ms);
        at = run.at;
        if samples.len() <= count as usize {
            break;
        }
        let Some((minus, size, end)) = comma_line::line_at(text, at, due.time) else {
            break;
        };
        store(degrees::sample(minus, size), samples, count as usize);
        sound = tallied(sound, count, size <= comma_line::SAMPLE_LIMIT as u64);
        count += 1;
        due = due.after(step.ms);
        at = end;
    }
    Ok((count, at, sound))
}

// Takes the right lines that `text` starts with, as many as `samples` has places, where `before` lines of the file
// stand before them. Puts their samples, a 0 for one out of range; the rest of `samples` stays. Or refusal 1 for the
// step.
pub fn take(text: &[u8], step: u64, before: u64, samples: &mut [i32]) -> LinesTaken
    ensures value { result ≡ lines_taken step before text.now (length samples.old) }
    ensures samples_after { samples.new ≡ put_by result text.now samples.old }
    ensures result_bound { before + taken_of result < 18446744073709551616 }
{
    if !comma_line::step_in_range(step) {
        return Err(Refusal::Item(1));
    }
    if before > MOST_LINES {
        return Ok((0, 0, 0));
    }
    right_lines(text, Step { ms: step }, before, samples)
}
