// Several files of one campaign whose records go on past a failure (document 02, [7]): what `bin/binomial` says of
// them. Each is counted as one file is (`comma_count`), and its record added to a sum; the first that cannot be taken
// ends it, named by its number. The definition is `Files.binomial_said`, over the whole texts, and that it makes no
// difference how each file comes is the theorem `Anywhere.files_anywhere`.
#![tactic(auto)]

ghost use Rattle.std.specs.Prelude.{◌≡◌, ◌≤◌, length};
ghost use Rattle.desk_line.specs.Said.{longest_said, Puts, putting, put_left};
ghost use Rattle.comma_count.specs.Taking.{end_of};
ghost use Rattle.binomial_files.specs.Files.{summed};
ghost use Rattle.binomial_files.specs.Adding.{opened_files, added_to, added_by, added_in, is_over, said_bounded};
ghost use Rattle.binomial_files.specs.Adding.{added_said};

use binomial_bounds::{Bounded, Bounds};
use binomial_sum::Sum;
use comma_count::{Counting, End};
use desk_line::Finished;
use record_state::Record;
use refusal::Refusal;
use sample_items::Items;

const TAB: u8 = b'\t';

const LF: u8 = b'\n';

// The sum so far; or the number of the file at fault, its line or 0, and the refusal.
pub type Added = Result<Sum, (u64, u64, Refusal)>;

// The sum of no files; or refusal 1 with the lowest item outside its range, which is no file's.
pub fn open(items: Items) -> Added
    ensures { result ≡ opened_files items }
{
    let item = sample_items::item_outside(items);
    if item == 0 {
        Ok(Sum {
            step: items.step,
            failures: 0,
            samples: 0,
        })
    } else {
        Err((0, 0, Refusal::Item(item)))
    }
}

fn added_to(file: u64, s: Sum, r: Record) -> Added
    ensures { result ≡ added_to file s r }
{
    match s.add(r) {
        Ok(t) => Ok(t),
        Err(q) => Err((file, 0, q)),
    }
}

fn added_by(file: u64, s: Sum, e: End) -> Added
    ensures { result ≡ added_by file s e }
{
    match e {
        Ok(r) => added_to(file, s, r),
        Err((line, q)) => Err((file, line, q)),
    }
}

fn added_in(file: u64, a: Added, e: End) -> Added
    ensures { result ≡ added_in file a e }
{
    match a {
        Ok(s) => added_by(file, s, e),
        Err((first, line, q)) => Err((first, line, q)),
    }
}

// The sum with the record of a file, the one of that number, which was counted to its end; or 10, 2, 3 with the line at
// fault, then 4, 11. What was refused stays.
pub fn add(file: u64, a: Added, c: Counting) -> Added
    ensures { result ≡ added_in file a (end_of c) }
{
    added_in(file, a, comma_count::came_to(c))
}

// Whether a file was refused: nothing that follows changes it.
pub fn is_over(a: Added) -> bool
    ensures { result ≡ is_over a }
{
    a.is_err()
}

fn put_sum(s: Sum, b: Bounds, out: &mut [u8]) -> Finished
    requires { longest_said ≤ length out.old }
    ensures { Puts (summed s b) out.old result out.new }
{
    let second = decimal::write_field(s.failures, TAB, out, 0);
    let third = decimal::write_field(s.samples, TAB, out, second);
    let fourth = decimal::write_field(b.estimate, TAB, out, third);
    let fifth = decimal::write_field(b.lower, TAB, out, fourth);
    let sixth = decimal::write_field(b.upper, TAB, out, fifth);
    let end = decimal::write_field(b.time, LF, out, sixth);
    Finished {
        put: end,
        end: desk_line::READ,
    }
}

fn put_bounded(s: Sum, b: Bounded, out: &mut [u8]) -> Finished
    requires { longest_said ≤ length out.old }
    ensures { Puts (said_bounded s b) out.old result out.new }
{
    match b {
        Ok((_, x)) => put_sum(s, x, out),
        Err(q) => desk_line::refuse_in(0, 0, q, out),
    }
}

fn put_added(a: Added, out: &mut [u8]) -> Finished
    requires { longest_said ≤ length out.old }
    ensures { Puts (added_said a) out.old result out.new }
{
    match a {
        Ok(s) => put_bounded(s, binomial_bounds::bound(s), out),
        Err((file, line, q)) => desk_line::refuse_in(file, line, q, out),
    }
}

// Writes the line of the files to the start of `out`: N, P, the estimate, its lower and its upper bound in thousandths
// of a failure, and P·D in ms; or refused, the number of the file at fault or 0, its line or 0, the refusal's number,
// and after 1 the item. Without room for any line nothing is written, and the program ends as failed.
pub fn finish(a: Added, out: &mut [u8]) -> Finished
    ensures value { result ≡ putting (added_said a) out.old }
    ensures out_after { out.new ≡ put_left (added_said a) out.old }
{
    if out.len() < desk_line::LONGEST_LINE {
        return desk_line::UNSAID;
    }
    put_added(a, out)
}
