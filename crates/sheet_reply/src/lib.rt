// The lines that the bureau writes about a job sheet, by document 01's section of that name: one for each record, and
// the refused line. Each is written whole into lent bytes from a place on, or not at all.
#![tactic(auto)]

ghost use Rattle.std.specs.Prelude.{◌≡◌, true, ◌+◌, ◌≤◌, length};
ghost use Rattle.text.specs.Write.{written, place_after};
ghost use Rattle.campaign_state.specs.State.{censored, sound};
ghost use Rattle.decimal.specs.Field.{ending};
ghost use Rattle.sheet_reply.specs.Written.{letter_for, reason_text, record_text, record_left, record_writing};
ghost use Rattle.sheet_reply.specs.Written.{refused_text, writing_reply};

use campaign_state::Campaign;
use campaign_verdict::Verdict;
use refusal::Refusal;

const TAB: u8 = b'\t';

const LF: u8 = b'\n';

// The refusal of a malformed line.
const MALFORMED: u64 = 9;

// The most bytes of a record's line. Where there is room for them, its own are not counted first.
const LONGEST_RECORD: usize = 30;

// The letter of the verdict on a campaign that keeps its relations.
fn letter(c: Campaign) -> u8
    requires { sound c ≡ true }
    ensures { result ≡ letter_for c }
{
    let Ok(v) = campaign_verdict::judge(c) else {
        return 0;
    };
    match v {
        Verdict::Accept(_) => b'A',
        Verdict::Reject(_) => b'R',
        Verdict::Continue(_, _) => b'C',
        Verdict::NoRecord => 0,
    }
}

// N* of a campaign that keeps its relations.
#[tactic(auto, unfolding(campaign_verdict::specs::Answers::counting))]
fn censored(c: Campaign) -> u64
    requires { sound c ≡ true }
    ensures { result ≡ censored c }
{
    campaign_verdict::censored(c).unwrap_or(0)
}

// The bytes of a record's line.
#[tactic(auto, unfolding(crate::specs::Written::record_text, crate::specs::Written::figures, decimal::specs::Field::field_text))]
fn record_length(c: Campaign) -> usize
    requires { sound c ≡ true }
    ensures { result ≡ length (record_text c) }
{
    if c.records == 0 {
        return 0;
    }
    decimal::digits(c.records)
        + decimal::digits(c.failures)
        + decimal::digits(censored(c))
        + decimal::digits(c.exposure)
        + 6
}

// Writes a record's line where it has room.
fn put_record(c: Campaign, out: &mut [u8], at: usize) -> usize
    requires { (sound c ≡ true) × (at + length (record_text c) ≤ length out.old) }
    ensures value { result ≡ place_after out.old at (record_text c) }
    ensures out_after { out.new ≡ written out.old at (record_text c) }
{
    if c.records == 0 {
        return at;
    }
    let censors = censored(c);
    let verdict = letter(c);
    let second = decimal::write_field(c.records, TAB, out, at);
    let third = decimal::write_field(c.failures, TAB, out, second);
    let fourth = decimal::write_field(censors, TAB, out, third);
    let fifth = decimal::write_field(c.exposure, TAB, out, fourth);
    let end = text::write_byte(verdict, out, fifth);
    text::write_byte(LF, out, end)
}

// Writes the line of the campaign's last record into `out` from `at` on: number, N, N*, T and A, R or C; without a
// record nothing. Or refusal 8; 7 with the bytes needed.
pub fn write_record(c: Campaign, out: &mut [u8], at: usize) -> Result<usize, Refusal>
    ensures value { result ≡ record_writing c out.old at }
    ensures out_after { out.new ≡ record_left c out.old at }
{
    if !campaign_state::sound(c) {
        return Err(Refusal::BrokenState);
    }
    if !text::has_room(out.len(), at, LONGEST_RECORD) {
        let needed = record_length(c);
        if !text::has_room(out.len(), at, needed) {
            return Err(Refusal::Room(needed as u64));
        }
    }
    Ok(put_record(c, out, at))
}

// The bytes of a refusal's number and its column.
#[tactic(auto, unfolding(crate::specs::Written::reason_text, decimal::specs::Field::field_text))]
fn reason_length(number: u64, column: u64) -> usize
    ensures value { result ≡ length (reason_text number column) }
    ensures upper_bound { result ≤ 42 }
{
    if number == MALFORMED {
        return decimal::digits(number) + decimal::digits(column) + 2;
    }
    decimal::digits(number) + 1
}

// What is written after a refusal's number: the column of a malformed line.
#[tactic(auto, unfolding(decimal::specs::Field::ending, crate::specs::Written::reason_text))]
fn told(number: u64, column: u64) -> Option<u64>
    ensures { ending number result ≡ reason_text number column }
{
    (number == MALFORMED).then_some(column)
}

// The bytes of the refused line.
#[tactic(auto, unfolding(crate::specs::Written::refused_text, decimal::specs::Field::field_text))]
fn refused_length(line: u64, column: u64, r: Refusal) -> usize
    ensures { result ≡ length (refused_text line column r) }
{
    decimal::digits(line) + reason_length(refusal::number(r), column) + 9
}

// Writes the refused line where it has room.
fn put_refused(line: u64, column: u64, r: Refusal, out: &mut [u8], at: usize) -> usize
    requires { at + length (refused_text line column r) ≤ length out.old }
    ensures value { result ≡ place_after out.old at (refused_text line column r) }
    ensures out_after { out.new ≡ written out.old at (refused_text line column r) }
{
    let number = refusal::number(r);
    let place = text::write_bytes(b"refused\t", out, at);
    let reason = decimal::write_field(line, TAB, out, place);
    decimal::end_line(number, told(number, column), out, reason)
}

// Writes the refused line into `out` from `at` on: refused, the line's number, the refusal's, and the column where
// that is 9. Or refusal 7 with the bytes needed.
#[tactic(auto, unfolding(crate::specs::Written::writing_reply, text::specs::Write::written, text::specs::Write::place_after))]
pub fn write_refused(
    line: u64,
    column: u64,
    r: Refusal,
    out: &mut [u8],
    at: usize,
) -> Result<usize, Refusal>
    ensures value { result ≡ writing_reply out.old at (refused_text line column r) }
    ensures out_after { out.new ≡ written out.old at (refused_text line column r) }
{
    let needed = refused_length(line, column, r);
    if !text::has_room(out.len(), at, needed) {
        return Err(Refusal::Room(needed as u64));
    }
    Ok(put_refused(line, column, r, out, at))
}
