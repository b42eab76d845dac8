// Many sheets in one run, for the comparison with the second implementation (tests/sheets): starting a process for
// each would take longer than reading it. Before each sheet stand six bytes: its length, the place at which it is cut
// in two, and the bytes lent for what its second part gives, low byte first. Each is read as `prog_tally` reads it,
// the second part from the bytes that the first left unread on; after what it gives stands a line with a full stop.
#![tactic(auto)]

ghost use Rattle.std.specs.Prelude.{◌≤◌, length};
ghost use Rattle.sheet_text.specs.Sheet.{left_in};

use sheet_line::Sheet;
use sheet_text::{Ran, Reading};
use std::io::{self, ErrorKind, Read, Stdin};

// What stands before a sheet, each a number of two bytes, low byte first.
#[derive(Clone, Copy)]
struct Head {
    size: usize,
    cut: usize,
    room: usize,
}

fn read_head(from: &mut Stdin) -> io::Result<Head> {
    let mut b = [0u8; 6];
    from.read_exact(&mut b)?;
    Ok(Head {
        size: u16::from_le_bytes([b[0], b[1]]) as usize,
        cut: u16::from_le_bytes([b[2], b[3]]) as usize,
        room: u16::from_le_bytes([b[4], b[5]]) as usize,
    })
}

// Runs over a piece and writes what it gives, or the refusal's number and what it carries. Answers what the reading
// came to. A write that fails is passed over: the full stop that the next one may not write either ends the run.
fn piece(to: &impl Print, s: Sheet, text: &[u8], more: bool, out: &mut [u8]) -> Reading
    ensures { left_in result ≤ length text.now }
{
    match sheet_text::run(s, text, more, out) {
        Ok((reading, put)) => {
            let _ = to.write_all(&out[..put]);
            reading
        }
        Err(r) => {
            let number = refusal::number(r);
            let carried = refusal::carried(r);
            let _ = println!(to; "{number}\t{carried}");
            Reading::Waiting(s, 0)
        }
    }
}

// One sheet, cut in two at `cut`, the second part with `room` bytes for what it gives.
fn one(to: &impl Print, text: &[u8], cut: usize, room: usize, out: &mut [u8]) {
    if text.len() < cut {
        return;
    }
    if out.len() < room {
        return;
    }
    let first = piece(to, Sheet::Fresh, &text[..cut], true, out);
    let Reading::Waiting(s, left) = first else {
        return;
    };
    let from = cut - left;
    piece(to, s, &text[from..], false, &mut out[..room]);
}

// Reads a sheet, unless there is none, and writes what it gives.
fn next(from: &mut Stdin, to: &impl Print, text: &mut [u8], out: &mut [u8]) -> io::Result<()> {
    let h = read_head(from)?;
    if text.len() < h.size {
        return Err(io::Error::from(ErrorKind::InvalidInput));
    }
    let sheet = &mut text[..h.size];
    let _ = from.read_exact(sheet);
    one(to, sheet, h.cut, h.room, out);
    to.write_all(b".\n")
}

// A proved loop has to end, so its sheets are counted, up to a number that no run uses up.
fn all(from: &mut Stdin, to: &impl Print, text: &mut [u8], out: &mut [u8]) {
    for _ in 0..u64::MAX {
        if next(from, to, text, out).is_err() {
            return;
        }
    }
}

fn main(rt: HostRuntime) {
    let mut text = [0u8; 65536];
    let mut out = [0u8; 327715];
    all(&mut rt.stdin(), &rt, &mut text, &mut out);
}
