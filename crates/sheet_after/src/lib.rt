// The next day (document 02, [2]): yesterday's job sheet taken up, its standard and its records, so that today's files
// follow them in one sheet: what `bin/sheet --after` writes. The sheet is read by the sheet's own reader of records
// (`sheet_records`) into lent records; from there on the files are those of `sheet_files`, with the numbers of the
// records after the last. A sheet that cannot be taken up is refused by its own line. The definition is
// `After.sheet_after`, over the whole texts; that it makes no difference how today's files come is
// `Anywhere.after_anywhere`, and that the sheet of all files comes of it `NextDay.next_day`.
#![tactic(auto)]

ghost use Rattle.std.specs.Prelude.{◌≡◌, length};
ghost use Rattle.sheet_files.specs.Files.{failures_in};
ghost use Rattle.desk_line.specs.Said.{putting, put_left};
ghost use Rattle.sheet_after.specs.After.{refused_old};
ghost use Rattle.sheet_after.specs.Taking.{counted_up, up_by, taking_up, taken_left};

use desk_line::Finished;
use refusal::Refusal;
use sample_items::Items;
use sheet_records::Resumed;

// The refusals after whose number one more is told: an item, and the column of a malformed line.
const ITEM: u64 = 1;

const MALFORMED: u64 = 9;

// How many of the records failed.
fn failures(records: &[i32]) -> u64
    ensures { result ≡ failures_in records.now }
{
    let mut n: u64 = 0;
    for record in records {
        n = truth::pick(*record < 0, n + 1, n);
    }
    n
}

// What taking a sheet up comes to: the standard, how many records are in their places, and how many of them failed;
// or the sheet's line at fault or 0, the column of its fault or 0, and the refusal.
pub type TakenUp = Result<(u64, u64, u64), (u64, u64, Refusal)>;

// The standard and the first records of `records`, as many as were read.
fn counted(q: u64, n: u64, records: &[i32]) -> TakenUp
    ensures { result ≡ counted_up q n records.now }
{
    let k = n as usize;
    if records.len() < k {
        return Err((0, 0, Refusal::Room(n)));
    }
    Ok((q, n, failures(&records[..k])))
}

fn by_reading(r: Resumed, records: &[i32]) -> TakenUp
    ensures { result ≡ up_by r records.now }
{
    match r {
        Ok((q, n)) => counted(q, n, records),
        Err((line, column, x)) => Err((line, column, x)),
    }
}

// Takes yesterday's sheet up: its records go to the front of `records`, whose rest stays. Or 1 with the lowest item
// outside its range, which is on no line of the sheet; then the sheet's first refusal with its line and column, 7 where
// `records` has too few places, and `records` as it stood.
pub fn take_up(items: Items, sheet: &[u8], records: &mut [i32]) -> TakenUp
    ensures value { result ≡ taking_up items sheet.now (length records.old) }
    ensures records_after { records.new ≡ taken_left items sheet.now records.old }
{
    let item = sample_items::item_outside(items);
    if item != 0 {
        return Err((0, 0, Refusal::Item(item)));
    }
    let r = sheet_records::records(sheet, records);
    by_reading(r, records)
}

// Writes the refused line of yesterday's sheet to the start of `out`: 0 for the record, its line at fault or 0, the
// refusal's number, after 9 the column and after 1 the item. Without room for any line nothing is written, and the
// program ends as failed.
pub fn refuse(line: u64, column: u64, r: Refusal, out: &mut [u8]) -> Finished
    ensures value { result ≡ putting (refused_old line column r) out.old }
    ensures out_after { out.new ≡ put_left (refused_old line column r) out.old }
{
    let number = refusal::number(r);
    let more = match number {
        MALFORMED => Some(column),
        ITEM => Some(refusal::carried(r)),
        _ => None,
    };
    sheet_fault::refuse(0, line, number, more, out)
}
