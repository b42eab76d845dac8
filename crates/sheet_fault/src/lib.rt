// The refused line of a job sheet that is one input among others (document 02, [10] and [13]): the word, the place of
// the sheet among them, the sheet's line, the refusal's number and, where there is one, a number more: the column of a
// malformed line, or an item. It goes to the start of lent bytes, which are to have room for any line.
#![tactic(auto)]

ghost use Rattle.std.specs.Prelude.{◌≡◌, ◌+◌, ◌≤◌, length};
ghost use Rattle.text.specs.Write.{written, place_after};
ghost use Rattle.desk_line.specs.Said.{longest_said, Puts, putting, put_left};
ghost use Rattle.sheet_fault.specs.Fault.{refused_sheet};

use desk_line::Finished;

const TAB: u8 = b'\t';

fn put_fault(place: u64, line: u64, number: u64, more: Option<u64>, out: &mut [u8]) -> Finished
    requires { longest_said ≤ length out.old }
    ensures { Puts (refused_sheet place line number more) out.old result out.new }
{
    let first = text::write_bytes(b"refused\t", out, 0);
    let second = decimal::write_field(place, TAB, out, first);
    let third = decimal::write_field(line, TAB, out, second);
    let put = decimal::end_line(number, more, out, third);
    Finished {
        put,
        end: desk_line::REFUSED,
    }
}

// The refused line of the sheet at this place, at its line, with the refusal's number and `more` where it is there.
// Without room for any line nothing is written, and the program ends as failed.
#[tactic(auto, unfolding(desk_line::specs::Said::putting, desk_line::specs::Said::put_left))]
pub fn refuse(place: u64, line: u64, number: u64, more: Option<u64>, out: &mut [u8]) -> Finished
    ensures value { result ≡ putting (refused_sheet place line number more) out.old }
    ensures out_after { out.new ≡ put_left (refused_sheet place line number more) out.old }
{
    if out.len() < desk_line::LONGEST_LINE {
        return desk_line::UNSAID;
    }
    put_fault(place, line, number, more, out)
}
