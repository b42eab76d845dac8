// How the clerk's commands answer: one line to standard output, and a digit by which the program says how it ended.
// What is refused is refused by one line for all of them: the word, the places that are named (a line; or a file, or a
// record, and a line), the refusal's number, and after 1 the item's. A line goes to the start of lent bytes, which are
// to have room for any.
#![tactic(auto)]

ghost use Rattle.std.specs.Prelude.{◌≡◌, [], ◌∷◌, ◌+◌, ◌≤◌, length};
ghost use Rattle.text.specs.Write.{written, place_after};
ghost use Rattle.decimal.specs.Field.{ending};
ghost use Rattle.desk_line.specs.Said.{why_text, refused, longest_said, Puts, putting, put_left};

use refusal::Refusal;

// How a program ends: all was read, something was refused, or something could not be read or written. Bytes and no
// enum, since a program writes the byte itself as its last word, and `putting` promises which.
pub const READ: u8 = b'0';

pub const REFUSED: u8 = b'1';

pub const FAILED: u8 = b'2';

// The most bytes of a line.
pub const LONGEST_LINE: usize = 128;

const TAB: u8 = b'\t';

// The refusal that names an item.
const ITEM: u64 = 1;

// How many bytes were written, and how a program ends that wrote them.
#[derive(Clone, Copy)]
pub struct Finished {
    pub put: usize,
    pub end: u8,
}

// Without room for a line nothing is written, and the program ends as failed. Each writer asks for room itself: a
// function that asks and then calls it would have to require that it may be called, and a public function asks nothing.
pub const UNSAID: Finished = Finished {
    put: 0,
    end: FAILED,
};

// What is written after a refusal's number: the item where it is 1.
#[tactic(auto, unfolding(decimal::specs::Field::ending, crate::specs::Said::why_text))]
fn item(number: u64, value: u64) -> Option<u64>
    ensures { ending number result ≡ why_text number value }
{
    (number == ITEM).then_some(value)
}

// Writes the refused line with the numbers of one place or two.
fn put_refused(places: &[u64], r: Refusal, out: &mut [u8]) -> Finished
    requires { (longest_said ≤ length out.old) × (length places.now ≤ 2) }
    ensures { Puts (refused places.now r) out.old result out.new }
{
    let number = refusal::number(r);
    let item = item(number, refusal::carried(r));
    let mut at = text::write_bytes(b"refused\t", out, 0);
    for place in places {
        at = decimal::write_field(*place, TAB, out, at);
    }
    let put = decimal::end_line(number, item, out, at);
    Finished { put, end: REFUSED }
}

// The refused line of one file, with the line at fault or 0. Without room for any line nothing is written, and the
// program ends as failed.
#[tactic(auto, unfolding(crate::specs::Said::putting, crate::specs::Said::put_left))]
pub fn refuse(line: u64, r: Refusal, out: &mut [u8]) -> Finished
    ensures value { result ≡ putting (refused (line ∷ []) r) out.old }
    ensures out_after { out.new ≡ put_left (refused (line ∷ []) r) out.old }
{
    if out.len() < LONGEST_LINE {
        return UNSAID;
    }
    put_refused(&[line], r, out)
}

// The same of one file among several, with its number or 0.
#[tactic(auto, unfolding(crate::specs::Said::putting, crate::specs::Said::put_left))]
pub fn refuse_in(file: u64, line: u64, r: Refusal, out: &mut [u8]) -> Finished
    ensures value { result ≡ putting (refused (file ∷ line ∷ []) r) out.old }
    ensures out_after { out.new ≡ put_left (refused (file ∷ line ∷ []) r) out.old }
{
    if out.len() < LONGEST_LINE {
        return UNSAID;
    }
    put_refused(&[file, line], r, out)
}
