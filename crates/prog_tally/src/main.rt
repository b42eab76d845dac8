// The clerk's program: a job sheet from standard input, and for each record of it a line to standard output, at the
// first refusal the refused line. It reads what there is, works through the lines that are complete, writes what they
// give, and only then reads again, so that a line that is typed is answered at once. What the lines give is
// `sheet_text::run`'s promise; here bytes are only carried to it and from it. A program of the kit has no exit
// status, so how it ended goes as a digit to a descriptor of its own, where bin/program waits for it.
#![tactic(auto)]

ghost use Rattle.std.specs.Prelude.{◌<◌, ◌≤◌, length};
ghost use Rattle.sheet_line.specs.Form.{longest_sheet_line};
ghost use Rattle.prog_tally.specs.Kept.{kept_by};

use prog_desk::{Broken, Desk, Ended};
use refusal::Refusal;
use sheet_line::Sheet;
use sheet_text::{Ran, Reading};
use std::fmt::InlineText;
use std::io::Read;
use std::ops::ControlFlow;

const LF: u8 = b'\n';

// The refusal of a malformed line.
const MALFORMED: u64 = 9;

// Where a reading that goes on stands, and the bytes of a line begun.
#[derive(Clone, Copy)]
struct Begun {
    sheet: Sheet,
    kept: usize,
}

// The lines that were taken before.
fn taken(s: Sheet) -> u64 {
    match s {
        Sheet::Fresh => 0,
        Sheet::Open(c) => c.records.wrapping_add(1),
    }
}

// Whether the line of that number, in `text` after the lines taken before, is one by which a command refused.
fn is_refused(s: Sheet, text: &[u8], line: u64) -> bool {
    let before = taken(s).wrapping_add(1);
    text.split(|b| *b == LF)
        .nth(line.wrapping_sub(before) as usize)
        .is_some_and(|line| line.starts_with(b"refused\t"))
}

// What a command needs beside the refused line to say it in words: for a malformed line whether it is a refused line
// itself, else what the refusal carries.
fn beside(handed: bool, r: Refusal) -> u64 {
    if refusal::number(r) == MALFORMED {
        u64::from(handed)
    } else {
        refusal::carried(r)
    }
}

// Tells it to whoever waits for how the program ends, and the refused line's fields with it.
fn tell_refusal(desk: &Desk, line: u64, column: u64, r: Refusal, handed: bool) {
    let beside = beside(handed, r);
    let number = refusal::number(r);
    let said = InlineText::<128>::of(format_args!(
        "{beside}\nrefused\t{line}\t{number}\t{column}\n"
    ));
    prog_desk::tell(desk, said.as_str().as_bytes());
}

// How a reading that does not wait ended, from where it stood before `text`.
fn ended(desk: &Desk, s: Sheet, text: &[u8], reading: Reading) -> Result<Ended, Broken> {
    match reading {
        Reading::Read(_) => Ok(Ended::Read),
        Reading::Stopped(line, column, r) => {
            tell_refusal(desk, line, column, r, is_refused(s, text, line));
            Ok(Ended::Refused)
        }
        Reading::Waiting(_, _) => Err(Broken),
    }
}

// Works through the lines of the first `end` bytes of `text`, and writes what they give; a line begun goes to the
// start of `text`.
fn work(
    desk: &Desk,
    s: Sheet,
    text: &mut [u8],
    end: usize,
    more: bool,
    out: &mut [u8],
) -> Result<ControlFlow<Ended, Begun>, Broken>
    requires { end ≤ length text.old }
    ensures { kept_by result < longest_sheet_line }
{
    let Ok((reading, put)) = sheet_text::run(s, &text[..end], more, out) else {
        return Err(Broken);
    };
    prog_desk::write_out(desk, out, put)?;
    let Reading::Waiting(sheet, kept) = reading else {
        let how = ended(desk, s, &text[..end], reading)?;
        return Ok(ControlFlow::Break(how));
    };
    text::keep(text, end - kept, kept);
    Ok(ControlFlow::Continue(Begun { sheet, kept }))
}

// Reads once, after the bytes of a line begun.
fn turn(
    desk: &Desk,
    b: Begun,
    text: &mut [u8],
    out: &mut [u8],
) -> Result<ControlFlow<Ended, Begun>, Broken>
    requires { b.kept ≤ length text.old }
    ensures { kept_by result < longest_sheet_line }
{
    let more = desk
        .input()
        .read(&mut text[b.kept..])
        .map_err(|e| prog_desk::fail(desk, b"standard input", e))?;
    work(desk, b.sheet, text, b.kept + more, more > 0, out)
}

// Answers how it ended. A proved loop has to end, and nothing says that the input does; so its turns are counted, up to
// a number that no run uses up.
fn serve(desk: &Desk, text: &mut [u8], out: &mut [u8]) -> Result<Ended, Broken>
    requires { longest_sheet_line ≤ length text.old }
{
    let mut begun = Begun {
        sheet: Sheet::Fresh,
        kept: 0,
    };
    for _ in 0..u64::MAX {
        match turn(desk, begun, text, out)? {
            ControlFlow::Continue(next) => begun = next,
            ControlFlow::Break(end) => return Ok(end),
        }
    }
    Err(Broken)
}

// `out` has room for whatever `text` may give: five bytes for each, and 35; so each turn is a single pass.
fn main(rt: HostRuntime) {
    let desk = Desk::new(rt);
    let mut text = [0u8; 16384];
    let mut out = [0u8; 81955];
    prog_desk::end(&desk, prog_desk::digit(serve(&desk, &mut text, &mut out)));
}
