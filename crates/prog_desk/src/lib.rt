// What the clerk's programs share: how a program reads a file through a buffer, what it writes, how it says that it has
// ended, the numbers among its arguments, and its progress on a terminal. No contract can say what is read or written:
// here bytes are only carried, and what is in them is the promise of the libraries beneath.
#![tactic(auto)]

mod given;
mod names;
mod source;
mod spool;

ghost use Rattle.std.specs.Prelude.{◌≡◌, ◌≤◌, length, IfOk};
ghost use Rattle.prog_desk.specs.Ending.{digit_of};

use comma_count::Counting;
use comma_pair::{Next, Watching};
use desk_line::Finished;
use given::Closed;
pub use given::{Again, Given, Start, input_again};
pub use names::Names;
use sample_channels::Levels;
use sample_items::Items;
pub use source::Source;
pub use spool::temporary;
use std::env::FillError;
use std::fmt::InlineText;
use std::fs::File;
use std::io::{self, ErrorKind, IsTerminal, Read, Stderr, Stdin, Write};
use std::rt::Env;

// Where a program says how it ended; bin/program waits for it there.
const END: &str = "/dev/fd/3";

// Where the names of files come from, one after the other, each ended by a 0 byte, which no name has; or a second file.
const SECOND: &str = "/dev/fd/4";

// Where Linux tells how far it is read.
const SECOND_PLACE: &str = "/proc/self/fdinfo/4";

// What was to be read or written could not be. What failed, and why, is said where it fails.
#[derive(Clone, Copy)]
pub struct Broken;

// How a program ends that could read and write what it had to: all was read, or something was refused.
#[derive(Clone, Copy, PartialEq, Eq)]
pub enum Ended {
    Read,
    Refused,
}

// What a program is given: the runtime, the descriptor where it says how it ended, and the other one that it reads
// from. Both are opened before anything else is, since a file would take the number of one that is not there.
#[derive(Drop)]
pub struct Desk {
    rt: HostRuntime,
    closed: Closed,
    end: Given,
    second: Given,
}

impl Desk {
    // That of a program that reads nothing but standard input.
    pub fn new(rt: HostRuntime) -> Desk {
        let closed = Closed::filled(&rt);
        let end = Given::to_write(&rt, END);
        Desk {
            rt,
            closed,
            end,
            second: Given::nothing(),
        }
    }

    // That of a program that reads a second descriptor.
    pub fn with_second(rt: HostRuntime) -> Desk {
        let closed = Closed::filled(&rt);
        let second = Given::to_read(&rt, SECOND, SECOND_PLACE);
        let end = Given::to_write(&rt, END);
        Desk {
            rt,
            closed,
            end,
            second,
        }
    }

    pub fn input(&self) -> Stdin {
        self.rt.stdin()
    }

    pub fn errors(&self) -> Stderr {
        self.rt.stderr()
    }

    pub fn second(&self) -> &Given {
        &self.second
    }
}

// An error in words, without the system's number that may stand after them.
fn reason(said: &str) -> &str {
    said.rsplit_once(" (os error ")
        .map_or(said, |(words, _)| words)
}

// Writes a line to standard error: what failed, as the caller names it, a colon and the reason as the system has it.
// Where that cannot be written either, nobody is left to be told.
pub fn fail(desk: &Desk, what: &[u8], error: io::Error) -> Broken {
    let said = InlineText::<256>::of(error);
    warn(desk, what);
    warn(desk, b": ");
    warn(desk, reason(said.as_str()).as_bytes());
    warn(desk, b"\n");
    Broken
}

// Writes to standard error.
pub fn warn(desk: &Desk, words: &[u8]) {
    let _ = desk.errors().write_all(words);
}

// What the file is called that holds what cannot be read twice.
const TEMPORARY: &[u8] = b"the temporary file";

// How many lines lie between two signs of progress.
const LINES_BETWEEN: u64 = 1_000_000;

// Writes the first `n` bytes of `out` to standard output. The length stands beside the bytes, since the libraries
// answer how many they have put into lent ones.
pub fn write_out(desk: &Desk, out: &[u8], n: usize) -> Result<(), Broken> {
    let bytes = out.get(..n).ok_or(Broken)?;
    desk.rt
        .stdout()
        .write_all(bytes)
        .map_err(|e| fail(desk, b"standard output", e))
}

// Writes to whoever waits for how the program ends. It need not be anybody.
pub fn tell(desk: &Desk, words: &[u8]) {
    let _ = desk.end.write_all(words);
}

// Writes a line to standard output, and answers how the program ends. Whoever waits for that learns a refused line too,
// so that a command can say it in words.
pub fn answer(desk: &Desk, out: &[u8], f: Finished) -> Result<Ended, Broken> {
    if f.end == desk_line::REFUSED {
        tell(desk, b"\n");
        tell(desk, out.get(..f.put).unwrap_or(b""));
    }
    write_out(desk, out, f.put)?;
    match f.end {
        desk_line::READ => Ok(Ended::Read),
        desk_line::REFUSED => Ok(Ended::Refused),
        _ => Err(Broken),
    }
}

// The digit of how a program ended.
pub fn digit(how: Result<Ended, Broken>) -> u8
    ensures { result ≡ digit_of how }
{
    match how {
        Ok(Ended::Read) => desk_line::READ,
        Ok(Ended::Refused) => desk_line::REFUSED,
        Err(Broken) => desk_line::FAILED,
    }
}

// Says how the program ended, by its digit.
pub fn end(desk: &Desk, how: u8) {
    tell(desk, &[how]);
}

// Puts an argument into `buffer`, and answers it; nothing where there is none, or none that fits.
pub fn word<'b>(desk: &Desk, i: usize, buffer: &'b mut [u8]) -> &'b mut [u8]
    ensures { length result.now ≤ length buffer.old }
{
    let n = desk.rt.arg(i, buffer).unwrap_or(0);
    &mut buffer[..n]
}

// How many arguments there are, the program's own name among them.
pub fn count_words(desk: &Desk) -> usize {
    let mut buffer = [0u8; 1];
    (0..usize::MAX)
        .find(|i| matches!(desk.rt.arg(*i, &mut buffer), Err(FillError::NotPresent)))
        .unwrap_or(usize::MAX)
}

// The number of an argument; where it is none of at most 12 digits, a number that is in no item's range: no `Option`,
// since it goes to the libraries as it is, which refuse it by the item's name.
pub fn item(desk: &Desk, i: usize) -> u64 {
    let mut buffer = [0u8; 32];
    decimal::number_or(word(desk, i, &mut buffer), u64::MAX)
}

// The items of a record: the step, the ramp, the roll's level and the decorrelation time, by the four arguments from
// `first` on, and the acceleration's level.
pub fn items(desk: &Desk, first: usize, acceleration: u64) -> Items {
    Items {
        step: item(desk, first),
        ramp: item(desk, first.wrapping_add(1)),
        levels: Levels {
            roll: item(desk, first.wrapping_add(2)),
            acceleration,
        },
        decorrelation: item(desk, first.wrapping_add(3)),
    }
}

// Whether somebody is watching.
pub fn watched(desk: &Desk) -> bool {
    desk.errors().is_terminal()
}

// Progress for a terminal, once in a million lines: their number.
pub fn show_progress(desk: &Desk, before: u64, lines: u64, shown: bool) {
    if shown && before / LINES_BETWEEN != lines / LINES_BETWEEN {
        let _ = eprint!(desk.errors(); "{lines} lines\r");
    }
}

// Reads once from `from`, which is called `name`, after the first `kept` bytes of `text`; answers where what is read
// ends.
pub fn fill<R: Read>(
    desk: &Desk,
    from: &mut R,
    name: &[u8],
    text: &mut [u8],
    kept: usize,
) -> Result<usize, Broken>
    ensures { IfOk result (λ end. (kept ≤ end) × (end ≤ length text.new)) }
{
    if text.len() < kept {
        return Err(Broken);
    }
    let n = from
        .read(&mut text[kept..])
        .map_err(|e| fail(desk, name, e))?;
    Ok(kept + n)
}

// Counts the file `from` through the buffer `text`, to its end or until nothing changes the answer any more. A proved
// loop has to end, and nothing says that the input does; so its turns are counted, up to a number that no run uses up.
// No `Source`: `comma_count::turn` itself moves what is left to the front.
pub fn serve<R: Read>(
    desk: &Desk,
    from: &mut R,
    name: &[u8],
    start: Counting,
    text: &mut [u8],
) -> Result<Counting, Broken> {
    let shown = watched(desk);
    let mut count = start;
    let mut kept = 0;
    for _ in 0..u64::MAX {
        if count.over {
            return Ok(count);
        }
        let end = fill(desk, from, name, text, kept)?;
        let t = comma_count::turn(count, text, end, kept < end);
        let c = t.counting;
        if end <= kept {
            return Ok(c);
        }
        show_progress(desk, count.follow.lines, c.follow.lines, shown);
        count = c;
        kept = t.kept;
    }
    Err(Broken)
}

// How many files lie between two signs of progress.
const FILES_BETWEEN: u64 = 100;

// Progress for a terminal, once in a hundred files: their number.
pub fn show_files(desk: &Desk, files: u64) {
    if files % FILES_BETWEEN == 0 && watched(desk) {
        let _ = eprint!(desk.errors(); "{files} files\r");
    }
}

// A name as a path. std takes a path as text alone, so a name that is no UTF-8 is not found.
fn path(name: &[u8]) -> io::Result<&str> {
    std::str::from_utf8(name).map_err(|_| io::Error::new(
        ErrorKind::InvalidFilename,
        "the name is no UTF-8",
    ))
}

// Opens the file of this name, and says why where it cannot.
pub fn open_file(desk: &Desk, name: &[u8]) -> Result<File, Broken> {
    path(name)
        .and_then(|path| File::open(&desk.rt, path))
        .map_err(|e| fail(desk, name, e))
}

// The same of a name of the list. An empty one stands for a file that the script could not find, and says so itself.
fn open_listed(desk: &Desk, name: &[u8]) -> Result<File, Broken> {
    if name.is_empty() {
        return Err(Broken);
    }
    open_file(desk, name)
}

// Counts the file that stands next in the list; none where the list is over.
pub fn serve_next(
    desk: &Desk,
    start: Counting,
    names: &mut Names,
    text: &mut [u8],
) -> Result<Option<Counting>, Broken> {
    let Some(name) = names.next(desk)? else {
        return Ok(None);
    };
    let mut from = open_listed(desk, name)?;
    let c = serve(desk, &mut from, name, start, text)?;
    Ok(Some(c))
}

// Reads from `from`, which is called `name`, to its end, or until `text` is full; answers what is read.
pub fn read_whole<'t, R: Read>(
    desk: &Desk,
    from: &mut R,
    name: &[u8],
    text: &'t mut [u8],
) -> Result<&'t [u8], Broken> {
    let mut kept = 0;
    for _ in 0..u64::MAX {
        if kept == text.len() {
            return Ok(text);
        }
        let end = fill(desk, from, name, text, kept)?;
        if end == kept {
            return Ok(&text[..end]);
        }
        kept = end;
    }
    Err(Broken)
}

// ---- two files of one record

// The two files.
#[derive(Drop)]
pub struct Pair<R, Q> {
    pub roll: R,
    pub acceleration: Q,
}

// The lines of the longer file.
fn longer(w: Watching) -> u64 {
    w.roll.lines.max(w.acceleration.lines)
}

// Counts two files of a record through a buffer for each, to their ends or until nothing changes the answer any more.
// Only the one that has to be read is waited for, so that one process may write both. The turns are counted as in
// `serve`.
pub fn serve_pair<R: Read, Q: Read>(
    desk: &Desk,
    start: Watching,
    from: &mut Pair<R, Q>,
    text: &mut [u8],
    other: &mut [u8],
) -> Result<Watching, Broken> {
    let shown = watched(desk);
    let mut roll = Source::new(&mut from.roll, b"the roll", text);
    let mut acceleration = Source::new(&mut from.acceleration, b"the acceleration", other);
    let mut watch = start;
    for _ in 0..u64::MAX {
        let t = comma_pair::take(
            watch,
            roll.unused(),
            roll.more,
            acceleration.unused(),
            acceleration.more,
        );
        let w = t.watching;
        show_progress(desk, longer(watch), longer(w), shown);
        watch = w;
        if w.over {
            return Ok(w);
        }
        roll.use_up(t.roll);
        acceleration.use_up(t.acceleration);
        match t.next {
            Next::Roll => roll.refill(desk)?,
            Next::Acceleration => acceleration.refill(desk)?,
            Next::Neither => return Ok(w),
        }
    }
    Err(Broken)
}

// Counts the two files of a record that stand next in the list, the roll's and then the acceleration's; none where the
// list is over. The first is opened before the second is looked for, since the bytes of its name may go then.
pub fn serve_next_pair(
    desk: &Desk,
    start: Watching,
    names: &mut Names,
    text: &mut [u8],
    other: &mut [u8],
) -> Result<Option<Watching>, Broken> {
    let Some(name) = names.next(desk)? else {
        return Ok(None);
    };
    let roll = open_listed(desk, name)?;
    let name = names.next(desk)?.ok_or(Broken)?;
    let acceleration = open_listed(desk, name)?;
    let mut from = Pair { roll, acceleration };
    let w = serve_pair(desk, start, &mut from, text, other)?;
    Ok(Some(w))
}
