// One line of a job sheet, by document 01's section of that name: a field read as a number, the line taken apart
// field by field, and the record entered into the campaign. By document 02, request 10, a line that is none of a
// sheet's has the column at which it is at fault. Where the reading stands goes in by value and comes back in the
// answer; the line's number follows from the campaign's records.
#![tactic(auto)]

ghost use Rattle.std.specs.Prelude.{◌≡◌, false, true, ◌+◌, ◌≤◌, drop, length};
ghost use Rattle.decimal.specs.Decimal.{is_number};
ghost use Rattle.sheet_line.specs.Field.{ends_here, field_at, field_of};
ghost use Rattle.sheet_line.specs.Form.{longest_sheet_line, is_sheet_line, begins};
ghost use Rattle.sheet_line.specs.Column.{how_many, is_parted, column_in, next_field, standard_fields, record_fields};
ghost use Rattle.sheet_line.specs.Column.{standard_column, record_column};
ghost use Rattle.campaign_state.specs.State.{sound};
ghost use Rattle.sheet_line.specs.Line.{field_then, line_after, malformed, outcome, standard_line, record_line};
ghost use Rattle.sheet_line.specs.Line.{stepping, telling};

use campaign_state::Campaign;
use record_end::Outcome;
use refusal::Refusal;

// The byte of the digit 0.
const ZERO: u8 = b'0';

const TAB: u8 = b'\t';

const LF: u8 = b'\n';

// What a field reads as.
#[derive(Clone, Copy)]
pub enum Field {
    // A number, and the place of the byte that ended the field.
    Number(u64, usize),
    // No bytes.
    Empty,
    // A byte that is no digit: the first one's place.
    Strange(usize),
    // Digits that start with 0 and go on.
    LeadingZero,
    // More digits than a number has.
    TooLong,
}

// Reads the field of `s` that starts at `at` and goes up to the next tab or LF, or to the end of `s`.
pub fn number_at(s: &[u8], at: usize) -> Field
    ensures { result ≡ field_at s.now at }
{
    let run = decimal::run_at(s, at);
    let end = run.end;
    if !ended(s, end) {
        return fault_at(s, at);
    }
    if end == at {
        return fault_at(s, at);
    }
    if end - at == 1 {
        return Field::Number(run.value, end);
    }
    if s[at] == ZERO {
        return fault_at(s, at);
    }
    Field::Number(run.value, end)
}

// What is wrong with the field of `s` that starts at `at` and is no number. It is looked for anew, so that a number
// is not kept waiting.
fn fault_at(s: &[u8], at: usize) -> Field
    requires { is_number (field_of (drop at s.now)) ≡ false }
    ensures { result ≡ field_at s.now at }
{
    if ended(s, at) {
        return Field::Empty;
    }
    let end = decimal::digits_end(s, at);
    let strange = !ended(s, end);
    let zero = s[at] == ZERO;
    if strange {
        return Field::Strange(end);
    }
    if zero {
        return Field::LeadingZero;
    }
    Field::TooLong
}

// Whether a field that comes to `at` ends there.
fn ended(s: &[u8], at: usize) -> bool
    ensures { result ≡ ends_here (drop at s.now) }
{
    if s.len() <= at {
        return true;
    }
    let b = s[at];
    if b == TAB {
        return true;
    }
    b == LF
}

// The most bytes of a line, with its LF.
const LONGEST_LINE: usize = 64;

// The largest number of 12 digits.
const MOST_NUMBER: u64 = 999_999_999_999;

// Whether `text` is ended by LF and no longer than a line may be.
pub fn is_line(text: &[u8]) -> bool
    ensures { result ≡ is_sheet_line text.now }
{
    let n = text.len();
    if n == 0 {
        return false;
    }
    if n > LONGEST_LINE {
        return false;
    }
    text[n - 1] == LF
}

// Whether `text` starts with `word`.
pub fn begins(text: &[u8], word: &[u8]) -> bool
    ensures { result ≡ begins word.now text.now }
{
    text.starts_with(word)
}

// How often `byte` stands in `text`.
fn how_many(byte: u8, text: &[u8]) -> usize
    ensures { result ≡ how_many byte text.now }
{
    text.iter().filter(|b| **b == byte).count()
}

// Whether `text` has one LF, and so many tabs between its fields.
fn is_parted(text: &[u8], tabs: usize) -> bool
    ensures { result ≡ is_parted tabs text.now }
{
    truth::both(how_many(LF, text) == 1, how_many(TAB, text) == tabs)
}

// What a look at a field gives: the column of what is wrong with it, or 0, and where the next field starts.
#[derive(Clone, Copy)]
struct Look {
    column: u64,
    next: usize,
}

// A look at the field of `text` at `at`, which has to be a number from `low` to `high`.
fn look_at(text: &[u8], at: usize, low: u64, high: u64) -> Look
    requires { (length text.now ≤ longest_sheet_line) × (at ≤ 100) }
    ensures column_value { result.column ≡ column_in low high at (field_at text.now at) }
    ensures next_value { result.next ≡ next_field (field_at text.now at) }
    ensures next_bound { result.next ≤ 100 }
{
    let f = number_at(text, at);
    let first = (at as u64) + 1;
    match f {
        Field::Number(v, next) => Look {
            column: truth::pick(truth::both(low <= v, v <= high), 0, first),
            next: next + 1,
        },
        Field::Strange(place) => Look {
            column: (place as u64) + 1,
            next: 0,
        },
        Field::Empty | Field::LeadingZero | Field::TooLong => Look {
            column: first,
            next: 0,
        },
    }
}

// The column of the first bad field of line 1, or 0.
fn standard_fields(text: &[u8]) -> u64
    requires { length text.now ≤ longest_sheet_line }
    ensures { result ≡ standard_fields text.now }
{
    if !begins(text, b"standard\t") {
        return 1;
    }
    let number = look_at(text, 9, 0, MOST_NUMBER);
    number.column
}

// The column of the first bad field of a record's line, or 0.
fn record_fields(due: u64, text: &[u8]) -> u64
    requires { length text.now ≤ longest_sheet_line }
    ensures { result ≡ record_fields due text.now }
{
    let number = look_at(text, 0, due, due);
    if number.column != 0 {
        return number.column;
    }
    let flag = look_at(text, number.next, 0, 1);
    if flag.column != 0 {
        return flag.column;
    }
    let exposure = look_at(text, flag.next, 0, MOST_NUMBER);
    exposure.column
}

// The column at which a malformed line 1 is at fault.
pub fn standard_column(text: &[u8]) -> u64
    ensures { result ≡ standard_column text.now }
{
    if !is_line(text) {
        return 0;
    }
    truth::pick(is_parted(text, 1), standard_fields(text), 0)
}

// The column at which a malformed line of the record numbered `due` is at fault.
pub fn record_column(due: u64, text: &[u8]) -> u64
    ensures { result ≡ record_column due text.now }
{
    if !is_line(text) {
        return 0;
    }
    let parted = is_parted(text, 2);
    let column = record_fields(due, text);
    truth::pick(parted, column, 0)
}

// Where the reading of a sheet stands. No `Option`: each of the two states has lines of its own that it takes.
#[derive(Clone, Copy)]
pub enum Sheet {
    // Before line 1.
    Fresh,
    // After a line: the campaign so far.
    Open(Campaign),
}

// The number field of `text` at `at` that the byte `end` ends, and the place after that byte.
#[tactic(auto, unfolding(crate::specs::Line::field_then, crate::specs::Line::ended_by))]
fn field_then(end: u8, text: &[u8], at: usize) -> Field
    ensures { result ≡ field_then end text.now at }
{
    let field = number_at(text, at);
    match field {
        Field::Number(value, next) => {
            if text.len() <= next {
                return Field::Strange(next);
            }
            if text[next] != end {
                return Field::Strange(next);
            }
            Field::Number(value, next + 1)
        }
        Field::Empty | Field::Strange(_) | Field::LeadingZero | Field::TooLong => field,
    }
}

// What a line comes to: the sheet after it; or the line's number, the column of a malformed line's fault or 0, and the
// refusal.
pub type Step = Result<Sheet, (u64, u64, Refusal)>;

// A malformed line 1.
fn bad_standard(text: &[u8]) -> Step
    ensures { result ≡ malformed 1 (standard_column text.now) }
{
    Err((1, standard_column(text), Refusal::Line(1)))
}

// Line 1.
fn standard_line(text: &[u8]) -> Step
    ensures { result ≡ standard_line (standard_column text.now) text.now }
{
    if !is_line(text) {
        return bad_standard(text);
    }
    if !begins(text, b"standard\t") {
        return bad_standard(text);
    }
    let Field::Number(q, end) = field_then(LF, text, 9) else {
        return bad_standard(text);
    };
    if end != text.len() {
        return bad_standard(text);
    }
    outcome(1, campaign_state::open(q))
}

// The record that a line tells of, entered by its outcome; or refusal 4 for no exposure, 3 for too long a one, 5, 6.
fn tell(c: Campaign, failed: bool, exposure: u64) -> Result<Campaign, Refusal>
    ensures { result ≡ telling c failed exposure }
{
    if exposure == 0 {
        return Err(Refusal::TooShort);
    }
    if exposure > sample_items::LONGEST_TIME {
        return Err(Refusal::TooLong);
    }
    c.enter(Outcome {
        failed: failed,
        exposure: exposure,
    })
}

// A malformed line of the campaign's next record.
fn bad_record(c: Campaign, text: &[u8]) -> Step
    requires { sound c ≡ true }
    ensures { result ≡ malformed (line_after c) (record_column (c.records + 1) text.now) }
{
    let line = c.records + 2;
    Err((
        line,
        record_column(c.records + 1, text),
        Refusal::Line(line),
    ))
}

// A later line, of the campaign's next record.
fn record_line(c: Campaign, text: &[u8]) -> Step
    requires { sound c ≡ true }
    ensures { result ≡ record_line (record_column (c.records + 1) text.now) c text.now }
{
    if !is_line(text) {
        return bad_record(c, text);
    }
    let Field::Number(number, second) = field_then(TAB, text, 0) else {
        return bad_record(c, text);
    };
    let Field::Number(flag, third) = field_then(TAB, text, second) else {
        return bad_record(c, text);
    };
    let Field::Number(exposure, end) = field_then(LF, text, third) else {
        return bad_record(c, text);
    };
    if !truth::both(
        truth::both(number == c.records + 1, flag <= 1),
        end == text.len(),
    ) {
        return bad_record(c, text);
    }
    outcome(c.records + 2, tell(c, flag == 1, exposure))
}

// What an answer about a line comes to.
fn outcome(line: u64, a: Result<Campaign, Refusal>) -> Step
    ensures { result ≡ outcome line a }
{
    a.map(Sheet::Open).map_err(|r| (line, 0, r))
}

impl Sheet {
    // Takes the sheet's next line, its LF with it; or refuses it: 9; line 1: 1; later lines: 4, 3, 5, 6. A broken
    // campaign is 8.
    pub fn line(self, text: &[u8]) -> Step
        ensures { result ≡ stepping self text.now }
    {
        match self {
            Sheet::Fresh => standard_line(text),
            Sheet::Open(c) => {
                if !campaign_state::sound(c) {
                    return Err((0, 0, Refusal::BrokenState));
                }
                record_line(c, text)
            }
        }
    }
}
