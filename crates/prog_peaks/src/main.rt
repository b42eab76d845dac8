// The clerk's search for envelope peaks in simulators' comma files, for bin/peaks: a line to standard output for each
// peak handed out, or the refused line. What is written is `peak_files`' promise, over the whole files however they
// come; here names and bytes are only carried. A file is gone over twice; what cannot be read twice is written to a
// temporary file on the way through, which has no name.
//
// Arguments: the step, the ramp, the decorrelation time; where a temporary file may be made, ending in XXXXXX; then
// nothing for one file on standard input, or a word where names come on a descriptor of their own.
#![tactic(auto)]

use peak_files::Pass;
use prog_desk::{Broken, Desk, Ended, Names, Source, Start};
use std::fs::File;
use std::io::Read;

// The most bytes that are read at once, of a file and of the list of names.
const BYTES: usize = 65_536;

// The argument that says where a temporary file may be made, and the one after it.
const SPOOL: usize = 4;

const LISTED: usize = 5;

// The items that are asked for.
#[derive(Clone, Copy)]
struct Asked {
    step: u64,
    ramp: u64,
    decorrelation: u64,
}

// The bytes that are lent for a file, and for the lines that are written.
#[derive(Drop)]
struct Room<'r> {
    text: &'r mut [u8],
    out: &'r mut [u8],
}

// One reading of a file, call after call; what is read goes to the copy too, where there is one. Where a call used no
// bytes, more is read. The turns are counted as in `prog_desk::serve`.
fn go_over<R: Read + Drop>(
    desk: &Desk,
    start: Pass,
    from: R,
    copy: Option<&File>,
    text: &mut [u8],
    out: &mut [u8],
) -> Result<Pass, Broken> {
    let shown = prog_desk::watched(desk);
    let mut source = Source::new(from, b"reading", text);
    let mut pass = start;
    for _ in 0..u64::MAX {
        let t = peak_files::take(pass, source.unused(), source.more, out);
        if t.put > 0 {
            prog_desk::write_out(desk, out, t.put)?;
        }
        let next = t.pass;
        prog_desk::show_progress(desk, pass.follow.lines, next.follow.lines, shown);
        pass = next;
        if next.over {
            return Ok(next);
        }
        if t.used > 0 {
            source.use_up(t.used);
        } else {
            source.refill_to(desk, copy)?;
        }
    }
    Err(Broken)
}

// The second reading, from the start of what the first went over.
fn read_again(
    desk: &Desk,
    a: Asked,
    first: Pass,
    again: Start,
    room: &mut Room,
) -> Result<Ended, Broken> {
    let file = again
        .go_back()
        .map_err(|e| prog_desk::fail(desk, b"going back to the start", e))?;
    let pass = peak_files::again(first, a.decorrelation);
    let second = go_over(desk, pass, file, None, room.text, room.out)?;
    let f = peak_files::finish(first, second, room.out);
    if f.end == desk_line::FAILED {
        prog_desk::warn(desk, b"peaks: the file changed while it was read\n");
        return Err(Broken);
    }
    prog_desk::answer(desk, room.out, f)
}

// Both readings of a file: the first of `from`, to the copy too where there is one, the second of `again`. `file` is
// its number among several, 0 where it is alone.
fn both<R: Read + Drop>(
    desk: &Desk,
    a: Asked,
    file: u64,
    from: R,
    copy: Option<&File>,
    again: Start,
    room: &mut Room,
) -> Result<Ended, Broken> {
    let pass = peak_files::open(a.step, a.ramp, file);
    let first = go_over(desk, pass, from, copy, room.text, room.out)?;
    let f = peak_files::judge(first, room.out);
    if f.end != desk_line::READ {
        return prog_desk::answer(desk, room.out, f);
    }
    read_again(desk, a, first, again, room)
}

// Both readings of what cannot be read twice: the second is of a copy.
fn copied<R: Read + Drop>(
    desk: &Desk,
    a: Asked,
    file: u64,
    from: R,
    room: &mut Room,
) -> Result<Ended, Broken> {
    let copy = prog_desk::temporary(desk, SPOOL)?;
    let again = Start { file: &copy, at: 0 };
    both(desk, a, file, from, Some(&copy), again, room)
}

// The one file on standard input.
fn alone(desk: &Desk, a: Asked, room: &mut Room) -> Result<Ended, Broken> {
    match prog_desk::input_again(desk) {
        Some(again) => {
            let again = Start {
                file: &again.file,
                at: again.start,
            };
            both(desk, a, 0, desk.input(), None, again, room)
        }
        None => copied(desk, a, 0, desk.input(), room),
    }
}

// One file that is open; `number` is its number among several.
fn one(desk: &Desk, a: Asked, number: u64, file: &File, room: &mut Room) -> Result<Ended, Broken> {
    match Start::here(file) {
        Some(again) => both(desk, a, number, file, None, again, room),
        None => copied(desk, a, number, file, room),
    }
}

// File after file, up to the first that is refused. The file's number is up by one with each.
fn each(desk: &Desk, a: Asked, names: &mut Names, room: &mut Room) -> Result<Ended, Broken> {
    for number in 1..u64::MAX {
        let Some(name) = names.next(desk)? else {
            return Ok(Ended::Read);
        };
        let file = prog_desk::open_file(desk, name)?;
        if one(desk, a, number, &file, room)? == Ended::Refused {
            return Ok(Ended::Refused);
        }
    }
    Err(Broken)
}

fn run(desk: &Desk, a: Asked, names: &mut Names, room: &mut Room) -> Result<Ended, Broken> {
    let f = peak_files::judge_items(a.step, a.ramp, a.decorrelation, room.out);
    if f.end != desk_line::READ {
        return prog_desk::answer(desk, room.out, f);
    }
    if prog_desk::count_words(desk) <= LISTED {
        alone(desk, a, room)
    } else {
        each(desk, a, names, room)
    }
}

fn main(rt: HostRuntime) {
    let desk = Desk::with_second(rt);
    let mut names = [0u8; BYTES];
    let mut text = [0u8; BYTES];
    let mut out = [0u8; peak_files::ROOM];
    let asked = Asked {
        step: prog_desk::item(&desk, 1),
        ramp: prog_desk::item(&desk, 2),
        decorrelation: prog_desk::item(&desk, 3),
    };
    let mut names = Names::new(&desk, &mut names);
    let mut room = Room {
        text: &mut text,
        out: &mut out,
    };
    prog_desk::end(
        &desk,
        prog_desk::digit(run(&desk, asked, &mut names, &mut room)),
    );
}
