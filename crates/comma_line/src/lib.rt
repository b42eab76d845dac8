// Comma files, by document 02 [1]: one sample a line, time in ms, comma, roll in degrees, each line ended by LF. Here
// one line is read, for whole texts (`comma_read`) and for programs that read a file piece by piece.
#![tactic(auto)]

ghost use Rattle.std.specs.Prelude.{◌≡◌};
ghost use Rattle.sample_items.specs.Limits.{step_in_range};
ghost use Rattle.degrees.specs.Degrees.{degrees_at};
ghost use Rattle.comma_line.specs.Line.{line_at};

// The largest sample without its sign (document 01, "Numbers a job may carry").
pub const SAMPLE_LIMIT: u32 = 1_000_000;

pub const COMMA: u8 = b',';

const LF: u8 = b'\n';

// Whether times may grow by this step.
pub fn step_in_range(step: u64) -> bool
    ensures { result ≡ step_in_range step }
{
    truth::both(1 <= step, step <= sample_items::LONGEST_STEP)
}

// What a right line says: whether the roll is below zero, its size, and the place after the line.
pub type Line = Option<(bool, u64, usize)>;

// Reads the line of `s` that starts at `at`, the line of the time `time`.
pub fn line_at(s: &[u8], at: usize, time: u64) -> Line
    ensures { result ≡ line_at s.now at time }
{
    let (t, end) = decimal::leading_at(s, at)?;
    if t != time {
        return None;
    }
    if !decimal::stands(s, end, COMMA) {
        return None;
    }
    let (minus, size, next) = roll_at(s, end + 1)?;
    if !decimal::stands(s, next, LF) {
        return None;
    }
    Some((minus, size, next + 1))
}

// Reads the degrees of `s` that start at `at`, plain ones first.
fn roll_at(s: &[u8], at: usize) -> Line
    ensures { result ≡ degrees_at s.now at }
{
    let from = degrees::past_minus(s, at);
    let bytes = comma_word::bytes_at(s, from);
    if bytes == 0 {
        return degrees::degrees_at(s, at);
    }
    Some((
        from != at,
        comma_word::size_at(s, from, bytes),
        from + bytes,
    ))
}
