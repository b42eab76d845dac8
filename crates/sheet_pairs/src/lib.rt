// The files of one campaign whose records have two channels, a file of roll and one of acceleration for each record,
// made into its job sheet (documents 01, "The job sheet", and 02, [2], [8]): what `bin/sheet` writes with an
// acceleration's level. Each pair of files is counted as `comma_pair` counts it, and its record goes to its place as
// one file's does (`sheet_files`); the refused line has the channel where the count names one. The definition is
// `Files.pairs_said`, over the whole texts, and that it makes no difference how each file comes is the theorem
// `Anywhere.pairs_anywhere`.
#![tactic(auto)]

ghost use Rattle.std.specs.Prelude.{◌≡◌, false, ◌≤◌, length, Ok};
ghost use Rattle.desk_line.specs.Said.{longest_said, Puts, putting, put_left};
ghost use Rattle.comma_pair.specs.Taking.{end_of};
ghost use Rattle.sheet_files.specs.Filing.{is_over};
ghost use Rattle.sheet_pairs.specs.Files.{refused_record_of};
ghost use Rattle.sheet_pairs.specs.Filing.{opened_pairs, adding_end, end_left, adding, adding_left};
ghost use Rattle.sheet_pairs.specs.Filing.{channel_put, channel_left, finishing, finish_left};

use comma_count::Counting;
use comma_pair::{PairFault, Watching};
use comma_stream::Follow;
use desk_line::Finished;
use record_state::Record;
use refusal::Refusal;
use sample_items::Items;
use sheet_files::Filed;

const TAB: u8 = b'\t';

const LF: u8 = b'\n';

// What was filed, as of one file a record, and the channel of the line at fault, or 0.
#[derive(Clone, Copy)]
pub struct FiledPairs {
    pub filed: Filed,
    pub channel: u64,
}

// No records yet; or 1 with item 5 for the standard, or with the lowest item outside its range, which are no record's.
pub fn open(q: u64, items: Items) -> FiledPairs
    ensures { result ≡ opened_pairs q items }
{
    FiledPairs {
        filed: sheet_files::open(q, items),
        channel: 0,
    }
}

// A count of one file that came to this record.
fn counted(r: Record) -> Counting
    ensures { result
        ≡ record { follow = record { step = 0; lines = 0; outside = 0 }; answer = Ok r; over = false } }
{
    Counting {
        follow: Follow {
            step: 0,
            lines: 0,
            outside: 0,
        },
        answer: Ok(r),
        over: false,
    }
}

fn add_end(number: u64, f: Filed, e: Result<Record, PairFault>, records: &mut [i32]) -> FiledPairs
    ensures value { result ≡ adding_end number f e (length records.old) }
    ensures records_after { records.new ≡ end_left number f e records.old }
{
    match e {
        Ok(r) => FiledPairs {
            filed: sheet_files::add(number, f, counted(r), records),
            channel: 0,
        },
        Err(PairFault::Plain(q)) => FiledPairs {
            filed: Err((number, 0, q)),
            channel: 0,
        },
        Err(PairFault::AtLine(line, q, channel)) => FiledPairs {
            filed: Err((number, line, q)),
            channel,
        },
    }
}

// The records with that of two files, the one of this number, which were counted to their ends: it goes to its place in
// `records`, whose rest stays. Or 10 with the line at fault and its channel, 12, 2 with the same, 3, then 4, 5, 6, 7
// where `records` has no place for it. What was refused stays.
pub fn add(number: u64, a: FiledPairs, w: Watching, records: &mut [i32]) -> FiledPairs
    ensures value { result ≡ adding number a (end_of w) (length records.old) }
    ensures records_after { records.new ≡ adding_left number a (end_of w) records.old }
{
    let f = a.filed;
    if sheet_files::is_over(f) {
        return a;
    }
    add_end(number, f, comma_pair::came_to(w), records)
}

// Whether a record was refused: nothing that follows changes it.
pub fn is_over(a: FiledPairs) -> bool
    ensures { result ≡ is_over a.filed }
{
    let f = a.filed;
    sheet_files::is_over(f)
}

fn put_channel(number: u64, line: u64, r: Refusal, channel: u64, out: &mut [u8]) -> Finished
    requires { longest_said ≤ length out.old }
    ensures { Puts (refused_record_of number line r channel) out.old result out.new }
{
    let first = text::write_bytes(b"refused\t", out, 0);
    let place = decimal::write_field(number, TAB, out, first);
    let why = decimal::write_field(line, TAB, out, place);
    let which = decimal::write_field(refusal::number(r), TAB, out, why);
    let end = decimal::write_field(channel, LF, out, which);
    Finished {
        put: end,
        end: desk_line::REFUSED,
    }
}

fn refuse_of(number: u64, line: u64, r: Refusal, channel: u64, out: &mut [u8]) -> Finished
    ensures value { result ≡ putting (refused_record_of number line r channel) out.old }
    ensures out_after { out.new ≡ put_left (refused_record_of number line r channel) out.old }
{
    if out.len() < desk_line::LONGEST_LINE {
        return desk_line::UNSAID;
    }
    put_channel(number, line, r, channel, out)
}

fn finish_of(q: u64, f: Filed, channel: u64, records: &[i32], out: &mut [u8]) -> Finished
    ensures value { result ≡ channel_put q f channel records.now out.old }
    ensures out_after { out.new ≡ channel_left q f channel records.now out.old }
{
    match f {
        Ok((n, failures)) => { sheet_files::finish(q, Ok((n, failures)), records, out) }
        Err((number, line, r)) => refuse_of(number, line, r, channel, out),
    }
}

// Writes what is said of the files to the start of `out`: the sheet of the standard and the first records of `records`,
// as many as were taken; or the refused line, with the number of the record at fault or 0, its line or 0, the refusal's
// number, after 1 the item, and after 10 and 2 the channel. Without room for the sheet the refusal is 7, which is no
// record's.
pub fn finish(q: u64, a: FiledPairs, records: &[i32], out: &mut [u8]) -> Finished
    ensures value { result ≡ finishing q a records.now out.old }
    ensures out_after { out.new ≡ finish_left q a records.now out.old }
{
    let f = a.filed;
    let channel = a.channel;
    if channel == 0 {
        return sheet_files::finish(q, f, records, out);
    }
    finish_of(q, f, channel, records, out)
}
