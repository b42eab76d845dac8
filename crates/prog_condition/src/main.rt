// The clerk's program for a loading condition: job sheets from standard input, one after the other, one for each
// design situation, and to standard output the report on all of them; or refused, the situation at fault, its line,
// the refusal's number and, for 9, the column, and nothing of the report. The arguments are the sheets' lengths in
// bytes, so their number is the number of situations. A sheet may have any length: it is read through a fixed buffer,
// and only its campaign is kept. What a sheet comes to is `sheet_text::read`'s promise, what is written
// `condition_sheets`', over the whole sheets however they come; here bytes are only carried.
#![tactic(auto)]

ghost use Rattle.std.specs.Prelude.{◌≤◌, ◌<◌, IfOk, length};
ghost use Rattle.sheet_line.specs.Form.{longest_sheet_line};
ghost use Rattle.prog_condition.specs.Left.{coming_by, kept_by};

use campaign_state::Campaign;
use condition_sheets::Situations;
use prog_desk::{Broken, Desk, Ended};
use sheet_line::Sheet;
use sheet_text::Reading;
use std::io::Read;
use std::ops::ControlFlow;

// Where a sheet's reading that goes on stands, the bytes of a line begun, and those of the sheet that are still to
// come.
#[derive(Clone, Copy)]
struct Begun {
    sheet: Sheet,
    kept: usize,
    coming: u64,
}

// Works through the lines of the first `end` bytes of `text`; a line begun goes to the start of `text`.
fn work(s: Sheet, text: &mut [u8], end: usize, coming: u64) -> ControlFlow<Reading, Begun>
    requires { end ≤ length text.old }
    ensures { (kept_by result < longest_sheet_line) × (coming_by result ≤ coming) }
{
    let reading = sheet_text::read(s, &text[..end], true);
    let Reading::Waiting(sheet, kept) = reading else {
        return ControlFlow::Break(reading);
    };
    text::keep(text, end - kept, kept);
    ControlFlow::Continue(Begun {
        sheet,
        kept,
        coming,
    })
}

// Reads once, after the bytes of a line begun: no more than are to come, and no more than there is room for.
fn turn(desk: &Desk, b: Begun, text: &mut [u8]) -> Result<ControlFlow<Reading, Begun>, Broken>
    requires { (b.kept ≤ length text.old) × (0 < b.coming) }
    ensures { IfOk result (λ next. (kept_by next < longest_sheet_line) × (coming_by next < b.coming)) }
{
    let room = text.len() - b.kept;
    let end = b.kept + b.coming.min(room as u64) as usize;
    let more = desk
        .input()
        .read(&mut text[b.kept..end])
        .map_err(|e| prog_desk::fail(desk, b"standard input", e))?;
    if more == 0 {
        prog_desk::warn(
            desk,
            b"standard input: it ends before the last sheet does\n",
        );
        return Err(Broken);
    }
    Ok(work(b.sheet, text, b.kept + more, b.coming - more as u64))
}

// Reads a sheet of `size` bytes. Each turn reads some of them, so the loop ends.
fn one(desk: &Desk, size: u64, text: &mut [u8]) -> Result<Reading, Broken>
    requires { longest_sheet_line ≤ length text.old }
{
    let mut begun = Begun {
        sheet: Sheet::Fresh,
        kept: 0,
        coming: size,
    };
    // No range to go over: a turn's step is what was read.
    while begun.coming > 0 {
        match turn(desk, begun, text)? {
            ControlFlow::Continue(next) => begun = next,
            ControlFlow::Break(reading) => return Ok(reading),
        }
    }
    Ok(sheet_text::read(begun.sheet, &text[..begun.kept], false))
}

// The report, or the refused line. `out` has room for the longest: 40 bytes and 28 for each situation, as
// `campaign_report` shows.
fn said(desk: &Desk, a: Situations, campaigns: [Campaign; 64]) -> Result<Ended, Broken> {
    let mut out = [0u8; 1832];
    let f = condition_sheets::finish(a, campaigns, &mut out);
    prog_desk::answer(desk, &out, f)
}

// Sheet after sheet, up to the first that is refused. The first word is the program's own name.
fn all(desk: &Desk, text: &mut [u8]) -> Result<Ended, Broken>
    requires { longest_sheet_line ≤ length text.old }
{
    let mut campaigns = [Campaign {
        standard: 0,
        records: 0,
        failures: 0,
        exposure: 0,
        failed: false,
    }; 64];
    let words = prog_desk::count_words(desk);
    let mut a = condition_sheets::open(words.saturating_sub(1) as u64);
    for word in 1..words {
        if condition_sheets::is_over(a) {
            return said(desk, a, campaigns);
        }
        let r = one(desk, prog_desk::item(desk, word), text)?;
        // no rule of the proofs lays a call's result in an array at once
        let placed = condition_sheets::place(campaigns, a, r);
        campaigns = placed;
        a = condition_sheets::add(a, r);
    }
    said(desk, a, campaigns)
}

fn main(rt: HostRuntime) {
    let desk = Desk::new(rt);
    let mut text = [0u8; 65536];
    prog_desk::end(&desk, prog_desk::digit(all(&desk, &mut text)));
}
