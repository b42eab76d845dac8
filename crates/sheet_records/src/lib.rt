// The job sheet written and its records read back, by document 02 [2], so that the next day can start where the last
// one stopped. Records are lent in order as exposures with a minus on the failed ones: they go into lent bytes in
// document 01's form, once every record is judged as the sheet's reader would judge it. A clean sheet is read line by
// line as it would be written; any other is left to the sheet's own reader, which knows its line, column and refusal.
#![tactic(auto)]

ghost use Rattle.std.specs.Prelude.{◌≡◌, cond, ◌+◌, ◌≤◌, ◌<◌, length, set};
ghost use Rattle.decimal.specs.Decimal.{zero_byte};
ghost use Rattle.text.specs.Write.{laid_by, place_after, written};
ghost use Rattle.sheet_line.specs.Texts.{head_text};
ghost use Rattle.sheet_records.specs.Ledger.{signed_record_text, lines_from, outcome_in, sheet_text};
ghost use Rattle.sheet_records.specs.Answers.{judged, judged_as, judged_one, writing_sheet};
ghost use Rattle.std.proofs.lemmas.List.Edits.{sets};
ghost use Rattle.sample_items.specs.Limits.{longest_time};
ghost use Rattle.degrees.specs.Degrees.{signed};
ghost use Rattle.sheet_records.specs.Records.{filled_by, records_of, resuming};
ghost use Rattle.sheet_records.specs.Pass.{CleanFrom, EntryAt, ExposureAt, HeadOf, Passes, flag_at, run_end};
ghost use Rattle.sheet_records.specs.Pass.{run_value, stopped_from, taken_after};

use record_end::Outcome;
use refusal::Refusal;
use sheet_line::Sheet;
use sheet_text::Reading;

const TAB: u8 = b'\t';

const LF: u8 = b'\n';

// The byte of the digit 0; that of 1 follows it.
const ZERO: u8 = b'0';

// The record that a number stands for. The least i32 is a failed record, and too long.
fn outcome(x: i32) -> Outcome
    ensures { result ≡ outcome_in x }
{
    Outcome {
        failed: x < 0,
        exposure: sample_size::magnitude(x) as u64,
    }
}

// The byte of a record's flag: 1 for failed, else 0.
fn flag_byte(failed: bool) -> u8
    ensures { result ≡ zero_byte + cond failed 1 0 }
{
    if failed { ZERO + 1 } else { ZERO }
}

// Judges a record's exposure after so many records and failures: none, too long, too many records, rows used up.
fn judge_one(count: u64, failures: u64, exposure: u64) -> Result<(), Refusal>
    ensures { result ≡ judged_one count failures exposure }
{
    if exposure == 0 {
        return Err(Refusal::TooShort);
    }
    if exposure > sample_items::LONGEST_TIME {
        return Err(Refusal::TooLong);
    }
    if count == campaign_state::MOST_RECORDS {
        return Err(Refusal::CampaignFull);
    }
    if failures == campaign_state::ROWS {
        return Err(Refusal::RowsUsedUp);
    }
    Ok(())
}

// Judges the standard, then record by record.
fn judge(q: u64, records: &[i32]) -> Result<(), Refusal>
    ensures { result ≡ judged_as (judged q records.now) }
{
    if !truth::both(1 <= q, q <= campaign_state::LONGEST_STANDARD) {
        return Err(Refusal::Item(5));
    }
    let mut failures: u64 = 0;
    for (i, x) in records.iter().enumerate() {
        let o = outcome(*x);
        judge_one(i as u64, failures, o.exposure)?;
        failures = truth::pick(o.failed, failures + 1, failures);
    }
    Ok(())
}

// The bytes of a record's line.
fn line_length(number: u64, x: i32) -> usize
    ensures { (result ≡ length (signed_record_text number x)) × (result ≤ 44) }
{
    let o = outcome(x);
    decimal::digits(number) + decimal::digits(o.exposure) + 4
}

// The bytes of the sheet.
fn sheet_length(q: u64, records: &[i32]) -> u64
    requires { length records.now ≤ 100000 }
    ensures { result ≡ length (sheet_text q records.now) }
{
    let mut total = (decimal::digits(q) as u64) + 10;
    for (i, x) in records.iter().enumerate() {
        total += line_length((i as u64) + 1, *x) as u64;
    }
    total
}

// Puts line 1 into `out`.
fn put_head(q: u64, out: &mut [u8]) -> usize
    requires { length (head_text q) ≤ length out.old }
    ensures value { result ≡ place_after out.old 0 (head_text q) }
    ensures out_after { out.new ≡ written out.old 0 (head_text q) }
{
    let number = text::write_bytes(b"standard\t", out, 0);
    let feed = decimal::write_number(q, out, number);
    text::write_byte(LF, out, feed)
}

// Puts a record's line into `out` from `at` on.
fn put_line(number: u64, x: i32, out: &mut [u8], at: usize) -> usize
    requires { at + length (signed_record_text number x) ≤ length out.old }
    ensures value { result ≡ place_after out.old at (signed_record_text number x) }
    ensures out_after { out.new ≡ written out.old at (signed_record_text number x) }
{
    let o = outcome(x);
    let tab = decimal::write_number(number, out, at);
    let flag = text::write_byte(TAB, out, tab);
    let tab2 = text::write_byte(flag_byte(o.failed), out, flag);
    let exposure = text::write_byte(TAB, out, tab2);
    let feed = decimal::write_number(o.exposure, out, exposure);
    text::write_byte(LF, out, feed)
}

// Puts the records' lines into `out` from `at` on.
fn put_lines(records: &[i32], out: &mut [u8], at: usize) -> usize
    requires { (length records.now ≤ 100000) × (at + length (lines_from 1 records.now) ≤ length out.old) }
    ensures value { result ≡ place_after out.old at (lines_from 1 records.now) }
    ensures out_after { out.new ≡ written out.old at (lines_from 1 records.now) }
{
    let mut place = at;
    for (i, x) in records.iter().enumerate() {
        place = put_line((i as u64) + 1, *x, out, place);
    }
    place
}

// Puts the sheet into `out`.
fn put_sheet(q: u64, records: &[i32], out: &mut [u8])
    requires { (length records.now ≤ 100000) × (length (sheet_text q records.now) ≤ length out.old) }
    ensures { out.new ≡ written out.old 0 (sheet_text q records.now) }
{
    let lines = put_head(q, out);
    put_lines(records, out, lines);
}

// Writes the sheet of a standard and its records into `out`, whose rest stays, and answers its bytes; or refusal 1
// with item 5, record by record 4, 3, 5, 6, then 7 with the bytes needed, and `out` as it stood.
pub fn write(q: u64, records: &[i32], out: &mut [u8]) -> Result<u64, Refusal>
    ensures value { result ≡ writing_sheet q records.now out.old }
    ensures out_after { out.new ≡ laid_by result (sheet_text q records.now) out.old }
{
    judge(q, records)?;
    let needed = sheet_length(q, records);
    if (out.len() as u64) < needed {
        return Err(Refusal::Room(needed));
    }
    put_sheet(q, records, out);
    Ok(needed)
}

// So many digits are always an exposure that is taken, if the first is not 0.
const FREE_DIGITS: usize = 7;

// The exposure at `at`, 1 to 10,000,000. What at most seven digits are worth need not be known.
fn exposure_at(text: &[u8], at: usize) -> Option<usize>
    ensures { ExposureAt text.now at result }
{
    let end = decimal::digits_end(text, at);
    if end == at {
        return None;
    }
    if decimal::stands(text, at, ZERO) {
        return None;
    }
    if end - at <= FREE_DIGITS {
        return Some(end);
    }
    let (t, next) = decimal::leading_at(text, at)?;
    if t > sample_items::LONGEST_TIME {
        return None;
    }
    Some(next)
}

// What stands at a record's line: whether the record failed, and the place after the line; nothing where it is no line
// of that record, or one whose exposure is not taken.
type Entry = Option<(bool, usize)>;

// The line of the record numbered `due` at `at`.
fn entry_at(text: &[u8], at: usize, due: u64) -> Entry
    ensures { EntryAt text.now at due result }
{
    let (number, end) = decimal::leading_at(text, at)?;
    if number != due {
        return None;
    }
    if !decimal::stands(text, end, TAB) {
        return None;
    }
    let failed = decimal::stands(text, end + 1, ZERO + 1);
    if !truth::either(failed, decimal::stands(text, end + 1, ZERO)) {
        return None;
    }
    if !decimal::stands(text, end + 2, TAB) {
        return None;
    }
    let feed = exposure_at(text, end + 3)?;
    if !decimal::stands(text, feed, LF) {
        return None;
    }
    Some((failed, feed + 1))
}

// What stands at line 1: the standard, and the place after the line.
type Head = Option<(u64, usize)>;

// Line 1.
fn line_one(text: &[u8]) -> Head
    ensures { HeadOf text.now result }
{
    if !sheet_line::begins(text, b"standard\t") {
        return None;
    }
    let (q, feed) = decimal::leading_at(text, 9)?;
    if !decimal::stands(text, feed, LF) {
        return None;
    }
    Some((q, feed + 1))
}

// The number of a record. No call of `degrees::sample`, whose range is that of a sample.
fn number_for(failed: bool, exposure: u64) -> i32
    requires { exposure ≤ longest_time }
    ensures { result ≡ signed failed exposure }
{
    let x = exposure as i32;
    if failed { -x } else { x }
}

// Whether a record is taken after so many records and failures.
fn takes(count: u64, failures: u64) -> bool
    ensures { result ≡ taken_after count failures }
{
    truth::both(
        count != campaign_state::MOST_RECORDS,
        failures != campaign_state::ROWS,
    )
}

// What a pass over a sheet comes to: the standard, the number of records and the place after line 1 of a sheet that
// reads cleanly.
type Passed = Option<(u64, u64, usize)>;

// Goes over all lines of `text`, to judge them.
fn pass(text: &[u8]) -> Passed
    ensures { Passes text.now result }
{
    let (q, begin) = line_one(text)?;
    if !truth::both(1 <= q, q <= campaign_state::LONGEST_STANDARD) {
        return None;
    }
    let mut at = begin;
    let mut count: u64 = 0;
    let mut failures: u64 = 0;
    // No range to go over: a turn's step is the line that `entry_at` read.
    while at < text.len() {
        let (failed, next) = entry_at(text, at, count + 1)?;
        if !takes(count, failures) {
            return None;
        }
        failures = truth::pick(failed, failures + 1, failures);
        count += 1;
        at = next;
    }
    Some((q, count, begin))
}

// A record of a clean sheet: whether it failed, its exposure, and the place after its line.
#[derive(Clone, Copy)]
struct Record {
    failed: bool,
    exposure: u64,
    next: usize,
}

// The record whose line starts at `at`, with a record number of `width` digits.
fn record_at(text: &[u8], at: usize, width: usize) -> Record
    requires { (at + width + 3 ≤ length text.now) × (run_end text.now (at + width + 3) < length text.now) }
    ensures failed_value { result.failed ≡ flag_at text.now (at + width + 1) }
    ensures exposure_value { result.exposure ≡ run_value text.now (at + width + 3) }
    ensures next_value { result.next ≡ run_end text.now (at + width + 3) + 1 }
{
    let failed = text[at + width + 1] == ZERO + 1;
    let run = decimal::run_at(text, at + width + 3);
    Record {
        failed: failed,
        exposure: run.value,
        next: run.end + 1,
    }
}

// Puts the records of a clean sheet, whose first line of a record starts at `begin`, into `places`, as many as there
// are places for. Their numbers were judged: they are passed over by their digits.
fn put_all(text: &[u8], begin: usize, places: &mut [i32])
    requires { CleanFrom text.now begin }
    ensures { places.new ≡ sets places.old 0 (records_of text.now) }
{
    let mut at = begin;
    let mut count: u64 = 0;
    let mut width: u64 = 1;
    let mut limit: u64 = 10;
    // No range to go over: a turn's step is the line that `record_at` read.
    while at < text.len() {
        let r = record_at(text, at, width as usize);
        text::put(number_for(r.failed, r.exposure), places, count as usize);
        count += 1;
        width = truth::pick(count + 1 == limit, width + 1, width);
        limit = truth::pick(count + 1 == limit, limit * 10, limit);
        at = r.next;
    }
}

// What reading the records of a sheet comes to: the standard, and the number of records; or the number of the first
// bad line, the column of its fault or 0, and its refusal. Refusal 7 is on no line, 0.
pub type Resumed = Result<(u64, u64), (u64, u64, Refusal)>;

// What the sheet's reader says of a sheet that does not read cleanly.
fn stopped(end: Reading) -> Resumed
    ensures { result ≡ stopped_from end }
{
    match end {
        Reading::Read(_) => Err((0, 0, Refusal::BrokenState)),
        Reading::Stopped(line, column, r) => Err((line, column, r)),
        Reading::Waiting(_, _) => Err((0, 0, Refusal::BrokenState)),
    }
}

// Reads the records of a sheet into `places`, whose rest stays: the exposures, with a minus on the failed ones.
// Answers the standard and the number of records; or the sheet's first refusal with its line and column, then 7 with
// the places needed, and `places` as it stood.
pub fn records(text: &[u8], places: &mut [i32]) -> Resumed
    ensures value { result ≡ resuming text.now (length places.old) }
    ensures places_after { places.new ≡ filled_by result (records_of text.now) places.old }
{
    let Some((q, count, begin)) = pass(text) else {
        return stopped(sheet_text::read(Sheet::Fresh, text, false));
    };
    if (places.len() as u64) < count {
        return Err((0, 0, Refusal::Room(count)));
    }
    put_all(text, begin, places);
    Ok((q, count))
}
