// The files of one campaign, a record each, made into its job sheet (documents 01, "The job sheet", and 02, [2]): what
// `bin/sheet` writes. Each file is counted as one file is (`comma_count`) and ended; its record goes to its place in
// lent records, and after the last file the sheet of them is written by the sheet's own writer (`sheet_records`). The
// first file that cannot be taken ends it, named by its number. The definition is `Files.sheet_said`, over the whole
// texts, and that it makes no difference how each file comes is the theorem `Anywhere.sheet_anywhere`.
#![tactic(auto)]

ghost use Rattle.std.specs.Prelude.{◌≡◌, ◌≤◌, length, set};
ghost use Rattle.sample_items.specs.Limits.{longest_time};
ghost use Rattle.comma_count.specs.Taking.{end_of};
ghost use Rattle.sheet_files.specs.Files.{record_in};
ghost use Rattle.sheet_files.specs.Filing.{opened_sheet, step_taken, step_ended, step_by, step_in, filed_of, left_by};
ghost use Rattle.sheet_files.specs.Filing.{is_over, writing_put, writing_left, sheet_put, sheet_left, finishing};
ghost use Rattle.sheet_files.specs.Filing.{finish_left};

use comma_count::{Counting, End};
use desk_line::Finished;
use record_end::RecordResult;
use record_state::Record;
use refusal::Refusal;
use sample_items::Items;

// How many records are in their places, and how many of them failed; or the number of the file at fault, its line or 0,
// and the refusal.
pub type Filed = Result<(u64, u64), (u64, u64, Refusal)>;

// No records yet; or 1 with item 5 for the standard, or with the lowest item outside its range, which are no file's.
pub fn open(q: u64, items: Items) -> Filed
    ensures { result ≡ opened_sheet q items }
{
    if !truth::both(1 <= q, q <= campaign_state::LONGEST_STANDARD) {
        return Err((0, 0, Refusal::Item(5)));
    }
    let item = sample_items::item_outside(items);
    if item == 0 {
        Ok((0, 0))
    } else {
        Err((0, 0, Refusal::Item(item)))
    }
}

// A record as the sheet has it: its exposure, with a minus if it failed.
fn record_in(x: RecordResult) -> i32
    requires { x.exposure ≤ longest_time }
    ensures { result ≡ record_in x }
{
    let t = x.exposure as i32;
    if x.first == 0 { t } else { 0 - t }
}

// What a file does: its record goes to a place, after which there are so many, so many of them failed; or it is
// refused.
pub type Step = Result<(u64, u64, u64, i32), (u64, u64, Refusal)>;

// A record after `n` others, of which so many failed: 5, 6, 7 for want of places, or its place.
fn step_taken(number: u64, n: u64, failures: u64, x: RecordResult, places: u64) -> Step
    requires { x.exposure ≤ longest_time }
    ensures { result ≡ step_taken number n failures x places }
{
    if n >= campaign_state::MOST_RECORDS {
        return Err((number, 0, Refusal::CampaignFull));
    }
    if failures >= campaign_state::ROWS {
        return Err((number, 0, Refusal::RowsUsedUp));
    }
    if places <= n {
        return Err((number, 0, Refusal::Room(n + 1)));
    }
    let record = record_in(x);
    Ok((
        n,
        n + 1,
        truth::pick(x.first == 0, failures, failures + 1),
        record,
    ))
}

fn step_ended(number: u64, n: u64, failures: u64, r: Record, places: u64) -> Step
    ensures { result ≡ step_ended number n failures r places }
{
    match record_end::end(r) {
        Ok(x) => step_taken(number, n, failures, x, places),
        Err(q) => Err((number, 0, q)),
    }
}

fn step_by(number: u64, n: u64, failures: u64, e: End, places: u64) -> Step
    ensures { result ≡ step_by number n failures e places }
{
    match e {
        Ok(r) => step_ended(number, n, failures, r, places),
        Err((line, q)) => Err((number, line, q)),
    }
}

fn step_in(number: u64, a: Filed, e: End, places: u64) -> Step
    ensures { result ≡ step_in number a e places }
{
    match a {
        Ok((n, failures)) => step_by(number, n, failures, e, places),
        Err((first, line, q)) => Err((first, line, q)),
    }
}

// Puts `x` into its place, where `records` has that place.
fn put(x: i32, records: &mut [i32], i: usize)
    ensures { records.new ≡ set records.old i x }
{
    if i < records.len() {
        records[i] = x;
    }
}

fn stored(s: Step, records: &mut [i32]) -> Filed
    ensures value { result ≡ filed_of s }
    ensures records_after { records.new ≡ left_by s records.old }
{
    match s {
        Ok((place, n, failures, x)) => {
            put(x, records, place as usize);
            Ok((n, failures))
        }
        Err((number, line, q)) => Err((number, line, q)),
    }
}

// The records with that of a file, the one of this number, which was counted to its end: it goes to its place in
// `records`, whose rest stays. Or 10, 2, 3 with the line at fault, then 4, 5, 6, 7 where `records` has no place for it.
// What was refused stays.
pub fn add(number: u64, a: Filed, c: Counting, records: &mut [i32]) -> Filed
    ensures value { result ≡ filed_of (step_in number a (end_of c) (length records.old)) }
    ensures records_after { records.new
        ≡ left_by (step_in number a (end_of c) (length records.old)) records.old }
{
    let places = records.len() as u64;
    let e = comma_count::came_to(c);
    stored(step_in(number, a, e, places), records)
}

// Whether a file was refused: nothing that follows changes it.
pub fn is_over(a: Filed) -> bool
    ensures { result ≡ is_over a }
{
    a.is_err()
}

fn put_writing(w: Result<u64, Refusal>, out: &mut [u8]) -> Finished
    ensures value { result ≡ writing_put w out.old }
    ensures out_after { out.new ≡ writing_left w out.old }
{
    match w {
        Ok(n) => Finished {
            put: n as usize,
            end: desk_line::READ,
        },
        Err(r) => desk_line::refuse_in(0, 0, r, out),
    }
}

fn put_sheet(q: u64, n: u64, records: &[i32], out: &mut [u8]) -> Finished
    ensures value { result ≡ sheet_put q n records.now out.old }
    ensures out_after { out.new ≡ sheet_left q n records.now out.old }
{
    let k = n as usize;
    if records.len() < k {
        return desk_line::refuse_in(0, 0, Refusal::Room(n), out);
    }
    let w = sheet_records::write(q, &records[..k], out);
    put_writing(w, out)
}

// Writes what is said of the files to the start of `out`: the sheet of the standard and the first records of `records`,
// as many as were taken; or the refused line, with the number of the file at fault or 0, its line or 0, the refusal's
// number, and after 1 the item. Without room for the sheet the refusal is 7, which is no file's.
pub fn finish(q: u64, a: Filed, records: &[i32], out: &mut [u8]) -> Finished
    ensures value { result ≡ finishing q a records.now out.old }
    ensures out_after { out.new ≡ finish_left q a records.now out.old }
{
    match a {
        Ok((n, _)) => put_sheet(q, n, records, out),
        Err((number, line, r)) => desk_line::refuse_in(number, line, r, out),
    }
}
