// The clerk's rate beyond the records, for bin/extrapolate: the names of comma files come on a descriptor of their own,
// one after the other, and their one line goes to standard output. A file is gone over twice, a piece at a time, as by
// `prog_peaks`, and no samples are held: only the peaks of all files are, in one list. What cannot be read twice is
// written to a temporary file on the way through, which has no name. What the lines say is `comma_stream`'s promise,
// what is counted and judged `comma_peaks`'s, what is kept, added and written `reach_files`'s; here bytes are only
// carried.
//
// Arguments: the step, the ramp, the level, the decorrelation time, k, the standard; where a temporary file may be
// made, ending in XXXXXX.
#![tactic(auto)]

use comma_peaks::Judged;
use comma_stream::{Follow, Followed, Rest};
use peak_stream::Surveying;
use prog_desk::{Broken, Desk, Ended, Names, Source, Start};
use reach_files::{Gathering, Job, Kept};
use std::fs::File;
use std::io::Read;

// The most bytes that are read at once, of a file and of the list of names; the most lines that are worked on at once.
const BYTES: usize = 65_536;

const LINES: usize = 1024;

// The argument that says where a temporary file may be made.
const SPOOL: usize = 7;

// A file of the list.
#[derive(Clone, Copy)]
struct Listed<'n> {
    number: u64,
    name: &'n [u8],
}

// A pass over a file: its lines so far, what they count, what they hand out where it is the second, and whether a line
// is wrong, so that nothing after it is read.
#[derive(Clone, Copy)]
struct Pass {
    follow: Follow,
    counted: Surveying,
    kept: Option<Kept>,
    wrong: bool,
}

// A pass of no lines yet.
fn begin(j: Job, kept: Option<Kept>) -> Result<Pass, Broken> {
    let Ok(counted) = peak_stream::survey(j.step) else {
        return Err(Broken);
    };
    Ok(Pass {
        follow: Follow {
            step: j.step,
            lines: 0,
            outside: 0,
        },
        counted,
        kept,
        wrong: false,
    })
}

// The pass after the lines of some samples, up to `f`. Their peaks go into the list, where it is the second.
fn with_samples(j: Job, p: Pass, f: Follow, samples: &[i32], list: &mut [u32]) -> Pass {
    let lines = p.follow.lines;
    Pass {
        follow: f,
        counted: comma_peaks::count(p.counted, j.ramp, lines, samples),
        kept: p
            .kept
            .map(|k| reach_files::hand(k, j.ramp, lines, samples, list)),
        wrong: p.wrong,
    }
}

// Takes all right lines that are read and not used yet. A turn that finds none is the last.
fn take_lines<R: Read>(j: Job, start: Pass, from: &mut Source<R>, list: &mut [u32]) -> Pass {
    let mut samples = [0i32; LINES];
    let mut pass = start;
    for _ in 0..from.unused().len() {
        let Ok((f, bytes, n)) = comma_stream::take(pass.follow, from.unused(), &mut samples) else {
            return pass;
        };
        pass = with_samples(j, pass, f, &samples[..n.min(LINES)], list);
        if bytes == 0 {
            return pass;
        }
        from.use_up(bytes);
    }
    pass
}

// A proved loop has to end, and nothing says that the input does; so its turns are counted, up to a number that no run
// uses up.
fn go_over(
    desk: &Desk,
    j: Job,
    start: Pass,
    from: &File,
    copy: Option<&File>,
    name: &[u8],
    list: &mut [u32],
) -> Result<Pass, Broken> {
    let mut text = [0u8; BYTES];
    let mut source = Source::new(from, name, &mut text);
    let shown = prog_desk::watched(desk);
    let mut pass = start;
    for _ in 0..u64::MAX {
        source.refill_to(desk, copy)?;
        let before = pass.follow.lines;
        pass = take_lines(j, pass, &mut source, list);
        match comma_stream::left(source.unused(), 0, source.more) {
            Rest::Waits(_) => {
                prog_desk::show_progress(desk, before, pass.follow.lines, shown);
            }
            Rest::Over => {
                return Ok(pass);
            }
            Rest::Wrong => {
                pass.wrong = true;
                return Ok(pass);
            }
        }
    }
    Err(Broken)
}

fn peaks_in(a: Gathering) -> u64 {
    match a {
        Ok(g) => g.peaks,
        Err(_) => 0,
    }
}

// The gathering with the peaks of a file, by the second pass, from the start of what the first went over.
fn second_pass(
    desk: &Desk,
    j: Job,
    l: Listed,
    a: Gathering,
    first: Pass,
    again: Start,
    list: &mut [u32],
) -> Result<Gathering, Broken> {
    let from = again
        .go_back()
        .map_err(|e| prog_desk::fail(desk, l.name, e))?;
    let s = first.counted;
    let begun = Kept {
        handed: peak_stream::begin(j.step, j.decorrelation, s.number, s.sum),
        peaks: peaks_in(a),
    };
    let p = go_over(desk, j, begin(j, Some(begun))?, from, None, l.name, list)?;
    let kept = p.kept.ok_or(Broken)?;
    let f = first.follow;
    if p.wrong || !comma_peaks::alike(f, s, p.follow, p.counted) {
        prog_desk::warn(desk, b"extrapolate: a file changed while it was read\n");
        return Err(Broken);
    }
    let n = reach_files::last(kept, list);
    Ok(reach_files::add(j, l.number, a, Ok(()), f.lines, n))
}

// The gathering with a file, by both passes: the first over `from`, to the copy too where there is one, the second from
// where `again` says.
fn both_passes(
    desk: &Desk,
    j: Job,
    l: Listed,
    a: Gathering,
    first: Pass,
    from: &File,
    copy: Option<&File>,
    again: Start,
    list: &mut [u32],
) -> Result<Gathering, Broken> {
    let p = go_over(desk, j, first, from, copy, l.name, list)?;
    let f = p.follow;
    match comma_peaks::judge(f, j.ramp, p.wrong) {
        Err((line, r)) => Ok(reach_files::add(
            j,
            l.number,
            a,
            Err((line, r)),
            f.lines,
            peaks_in(a),
        )),
        Ok(()) => second_pass(desk, j, l, a, p, again, list),
    }
}

// The gathering with a file that is open. One that cannot be read twice is copied on the way through the first pass.
fn one(
    desk: &Desk,
    j: Job,
    l: Listed,
    a: Gathering,
    from: &File,
    list: &mut [u32],
) -> Result<Gathering, Broken> {
    let first = begin(j, None)?;
    if let Some(again) = Start::here(from) {
        return both_passes(desk, j, l, a, first, from, None, again, list);
    }
    let copy = prog_desk::temporary(desk, SPOOL)?;
    let again = Start { file: &copy, at: 0 };
    both_passes(desk, j, l, a, first, from, Some(&copy), again, list)
}

fn said(desk: &Desk, j: Job, a: Gathering, list: &mut [u32]) -> Result<Ended, Broken> {
    let mut out = [0u8; desk_line::LONGEST_LINE];
    let f = reach_files::finish(j, a, list, &mut out);
    prog_desk::answer(desk, &out, f)
}

// File after file, up to the first that is refused. The turns are counted as in `prog_desk::serve`, by the file's
// number.
fn each(desk: &Desk, j: Job, names: &mut Names, list: &mut [u32]) -> Result<Ended, Broken> {
    let mut gathering = reach_files::open(j);
    for number in 1..u64::MAX {
        if reach_files::is_over(gathering) {
            return said(desk, j, gathering, list);
        }
        let Some(name) = names.next(desk)? else {
            return said(desk, j, gathering, list);
        };
        let from = prog_desk::open_file(desk, name)?;
        gathering = one(desk, j, Listed { number, name }, gathering, &from, list)?;
        prog_desk::show_files(desk, number);
    }
    Err(Broken)
}

fn main(rt: HostRuntime) {
    let desk = Desk::with_second(rt);
    let mut names = [0u8; BYTES];
    let mut list = [0u32; peak_tail::LONGEST_LIST as usize];
    let j = Job {
        step: prog_desk::item(&desk, 1),
        ramp: prog_desk::item(&desk, 2),
        level: prog_desk::item(&desk, 3),
        decorrelation: prog_desk::item(&desk, 4),
        tail: prog_desk::item(&desk, 5),
        standard: prog_desk::item(&desk, 6),
    };
    let mut names = Names::new(&desk, &mut names);
    prog_desk::end(
        &desk,
        prog_desk::digit(each(&desk, j, &mut names, &mut list)),
    );
}
