// A comma file read as it comes, by document 02 [1]: piece after piece, whose lines need not end where the pieces do.
// A piece's right lines are taken; what is left of it goes before the next piece. That the pieces make no difference
// is the theorem `Pieces.followed_whole`.
#![tactic(auto)]

ghost use Rattle.std.specs.Prelude.{◌≡◌, cond, ◌&&◌, ◌+◌, ◌≤◌, ◌<◌, eqb, ltb, length, drop};
ghost use Rattle.comma_stream.specs.Follow.{unended, resting, waiting_for, taking, leaving, number_of};

use refusal::Refusal;

const LF: u8 = b'\n';

// The most bytes of a line: two numbers of 12 digits, comma, minus, point, three digits, LF.
const LONGEST_LINE: usize = 31;

// Where the reading of a file stands.
#[derive(Clone, Copy)]
pub struct Follow {
    // The step by which times grow.
    pub step: u64,
    // The lines so far.
    pub lines: u64,
    // The line of the first sample out of range, 0 for none.
    pub outside: u64,
}

// What stands after the right lines: three ends, of which none is a value or a failure to hand on.
#[derive(Clone, Copy)]
pub enum Rest {
    // So many bytes of a line that may have begun; more is to come.
    Waits(usize),
    // Nothing, and nothing comes any more.
    Over,
    Wrong,
}

// Whether `text` has no LF.
fn unended(text: &[u8]) -> bool
    ensures { result ≡ unended text.now }
{
    text.iter().all(|b| *b != LF)
}

// What stands at `at`, where no right line does, and whether more may come: a line may have begun that has no LF yet
// and fewer bytes than a line may have.
pub fn left(text: &[u8], at: usize, more: bool) -> Rest
    ensures value { result ≡ resting (drop at text.now) more }
    ensures result_bound { waiting_for result < 31 }
{
    if text.len() <= at {
        if more {
            return Rest::Waits(0);
        }
        return Rest::Over;
    }
    if !more {
        return Rest::Wrong;
    }
    if text.len() - at >= LONGEST_LINE {
        return Rest::Wrong;
    }
    if !unended(&text[at..]) {
        return Rest::Wrong;
    }
    Rest::Waits(text.len() - at)
}

// The line of the first sample out of range, once so many lines more are read, of which so many samples stand before
// their first.
fn noted(f: Follow, number: u64, sound: u64) -> u64
    requires { f.lines + number < 18446744073709551616 }
    ensures { result ≡ cond (eqb f.outside 0 && ltb sound number) (f.lines + sound + 1) f.outside }
{
    if truth::both(f.outside == 0, sound < number) {
        return f.lines + sound + 1;
    }
    f.outside
}

// What a piece comes to: where the reading stands after its right lines, their bytes, and their number; or the refusal.
pub type Followed = Result<(Follow, usize, usize), Refusal>;

// Takes the right lines that `text` starts with, as many as `samples` has places, and puts their samples there, a 0
// for one out of range; the rest of `samples` stays. Or refusal 1 for the step.
pub fn take(f: Follow, text: &[u8], samples: &mut [i32]) -> Followed
    ensures value { result ≡ taking f text.now (length samples.old) }
    ensures samples_after { samples.new ≡ leaving result text.now samples.old }
    ensures result_in_bounds { number_of result ≤ length samples.old }
{
    let (number, bytes, sound) = comma_read::take(text, f.step, f.lines, samples)?;
    let after = Follow {
        step: f.step,
        lines: f.lines + number,
        outside: noted(f, number, sound),
    };
    Ok((after, bytes, number as usize))
}
