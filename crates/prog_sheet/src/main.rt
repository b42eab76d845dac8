// The clerk's writer of a job sheet from the files of a campaign, for bin/sheet: their names come on a descriptor of
// their own, one after the other, and the sheet, or the refused line, goes to standard output once all of it is known;
// the standard and the items are arguments. What is written is `sheet_files`' promise, over the whole files however
// they come, and with two files a record, roll and acceleration, `sheet_pairs`'; here names and bytes are only carried.
// A file alone has one channel, so that any level in range will do for the other.
// Yesterday's sheet, where it is asked for, is on standard input, and is taken up first (`sheet_after`): its standard
// is today's, and its records go before today's files.
#![tactic(auto)]

ghost use Rattle.std.specs.Prelude.{◌≡◌, length};

use prog_desk::{Broken, Desk, Ended, Names};
use refusal::Refusal;
use sample_items::Items;
use sheet_after::TakenUp;
use sheet_files::Filed;
use sheet_pairs::FiledPairs;

// The most bytes that are read at once, of a file and of the list of names.
const BYTES: usize = 65_536;

// The most records of a sheet.
const RECORDS: usize = 100_000;

// The most bytes of one: line 1 has at most 22, a record's line 18; and room for any line that refuses.
const SHEET: usize = 1_800_150;

// Room for them. The `ensures` gives only the length, which lending an array as a slice needs.
fn room_for_records() -> [i32; RECORDS]
    ensures { 100000 ≡ length result }
{
    [0; RECORDS]
}

fn room_for_the_sheet() -> [u8; SHEET]
    ensures { 1800150 ≡ length result }
{
    [0; SHEET]
}

// Not inlined: where no sheet is written its room would be put on the stack all the same, and filled.
#[inline(never)]
fn said(desk: &Desk, q: u64, a: FiledPairs, records: &[i32]) -> Result<Ended, Broken> {
    let mut out = room_for_the_sheet();
    let f = sheet_pairs::finish(q, a, records, &mut out);
    prog_desk::answer(desk, &out, f)
}

// What all records of a day share: the standard, the items, and whether a record has two files.
#[derive(Clone, Copy)]
struct Job {
    standard: u64,
    items: Items,
    two: bool,
}

// Where a day starts: what is filed, and the number of the first record.
#[derive(Clone, Copy)]
struct Start {
    filed: FiledPairs,
    number: u64,
}

// The bytes that are lent for a day: for the file of a record, for its second one, and for the records.
#[derive(Drop)]
struct Room<'r> {
    text: &'r mut [u8],
    other: &'r mut [u8],
    records: &'r mut [i32],
}

// What is filed with the next record, which has this number, from one file; none where the list is over.
fn one(
    desk: &Desk,
    number: u64,
    j: Job,
    a: FiledPairs,
    names: &mut Names,
    room: &mut Room,
) -> Result<Option<FiledPairs>, Broken> {
    let start = comma_count::open(j.items);
    let Some(c) = prog_desk::serve_next(desk, start, names, room.text)? else {
        return Ok(None);
    };
    prog_desk::show_files(desk, number);
    let filed = sheet_files::add(number, a.filed, c, room.records);
    Ok(Some(FiledPairs { filed, channel: 0 }))
}

// The same from two, the roll's and the acceleration's.
fn two(
    desk: &Desk,
    number: u64,
    j: Job,
    a: FiledPairs,
    names: &mut Names,
    room: &mut Room,
) -> Result<Option<FiledPairs>, Broken> {
    let start = comma_pair::open(j.items);
    let Some(w) = prog_desk::serve_next_pair(desk, start, names, room.text, room.other)? else {
        return Ok(None);
    };
    prog_desk::show_files(desk, number.wrapping_add(number));
    Ok(Some(sheet_pairs::add(number, a, w, room.records)))
}

// The next record; none, too, where one was refused.
fn next(
    desk: &Desk,
    number: u64,
    j: Job,
    a: FiledPairs,
    names: &mut Names,
    room: &mut Room,
) -> Result<Option<FiledPairs>, Broken> {
    if sheet_pairs::is_over(a) {
        Ok(None)
    } else if j.two {
        two(desk, number, j, a, names, room)
    } else {
        one(desk, number, j, a, names, room)
    }
}

// Record after record, up to the first that is refused. The number of the next one is up by one with each, and ends the
// loop that has to end at a number that no run reaches.
fn each(
    desk: &Desk,
    j: Job,
    s: Start,
    names: &mut Names,
    room: &mut Room,
) -> Result<Ended, Broken> {
    let mut filed = s.filed;
    for number in s.number..u64::MAX {
        let Some(a) = next(desk, number, j, filed, names, room)? else {
            return said(desk, j.standard, filed, room.records);
        };
        filed = a;
    }
    Err(Broken)
}

// What taking yesterday's sheet up comes to. The buffer holds as much of a sheet as decides (`demands`'
// NextDay.first_bytes), and is free again when today's files come.
fn take_up(desk: &Desk, items: Items, records: &mut [i32]) -> Result<TakenUp, Broken> {
    let mut buffer = room_for_the_sheet();
    let mut input = desk.input();
    let sheet = prog_desk::read_whole(desk, &mut input, b"yesterday's sheet", &mut buffer)?;
    Ok(sheet_after::take_up(items, sheet, records))
}

fn sheet_refused(desk: &Desk, line: u64, column: u64, r: Refusal) -> Result<Ended, Broken> {
    let mut out = [0u8; 128];
    let f = sheet_after::refuse(line, column, r, &mut out);
    prog_desk::answer(desk, &out, f)
}

// The standard among the words, if there is one, has to be yesterday's sheet's; else it is said that it is not.
fn agrees(desk: &Desk, given: u64, q: u64) -> Result<(), Broken> {
    if given == u64::MAX || given == q {
        return Ok(());
    }
    let to = desk.errors();
    let _ = eprint!(to; "sheet: the standard of yesterday's sheet is {q}, and another was given\n");
    Err(Broken)
}

fn next_day(desk: &Desk, j: Job, names: &mut Names, room: &mut Room) -> Result<Ended, Broken> {
    match take_up(desk, j.items, room.records)? {
        Err((line, column, r)) => sheet_refused(desk, line, column, r),
        Ok((q, n, failures)) => {
            agrees(desk, j.standard, q)?;
            let day = Job {
                standard: q,
                items: j.items,
                two: j.two,
            };
            let s = Start {
                filed: FiledPairs {
                    filed: Ok((n, failures)),
                    channel: 0,
                },
                number: n.wrapping_add(1),
            };
            each(desk, day, s, names, room)
        }
    }
}

// The program's own name, the standard, four items, and 1 where yesterday's sheet is on standard input; the level of
// the acceleration after these asks for two files a record.
const WORDS: usize = 7;

const SHEETS: usize = 6;

fn day(desk: &Desk, j: Job, names: &mut Names, room: &mut Room) -> Result<Ended, Broken> {
    if prog_desk::item(desk, SHEETS) == 1 {
        return next_day(desk, j, names, room);
    }
    let s = Start {
        filed: sheet_pairs::open(j.standard, j.items),
        number: 1,
    };
    each(desk, j, s, names, room)
}

fn level_beside(desk: &Desk, two: bool) -> u64 {
    if two {
        prog_desk::item(desk, WORDS)
    } else {
        sample_items::HIGHEST_LEVEL
    }
}

fn main(rt: HostRuntime) {
    let desk = Desk::with_second(rt);
    let mut names = [0u8; BYTES];
    let mut text = [0u8; BYTES];
    let mut other = [0u8; BYTES];
    let mut records = room_for_records();
    let two = prog_desk::count_words(&desk) > WORDS;
    let j = Job {
        standard: prog_desk::item(&desk, 1),
        items: prog_desk::items(&desk, 2, level_beside(&desk, two)),
        two,
    };
    let mut names = Names::new(&desk, &mut names);
    let mut room = Room {
        text: &mut text,
        other: &mut other,
        records: &mut records,
    };
    prog_desk::end(
        &desk,
        prog_desk::digit(day(&desk, j, &mut names, &mut room)),
    );
}
