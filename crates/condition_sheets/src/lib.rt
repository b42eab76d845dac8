// The job sheets of a loading condition, one for each design situation, made into its report (document 02, [13]): what
// `bin/condition` writes. Each sheet is read as it comes (`sheet_text`); what its reading came to goes here, its
// campaign to the next of 64 places, and after the last sheet the report on them is written by its own writer
// (`campaign_report`). The first sheet that cannot be taken ends it, named by its number. The definition is
// `Report.condition_said`, over the whole texts, and that it makes no difference how each sheet comes is the theorem
// `Anywhere.condition_anywhere`.
#![tactic(auto)]

ghost use Rattle.std.specs.Prelude.{◌≡◌, ◌<◌};
ghost use Rattle.desk_line.specs.Said.{putting, put_left};
ghost use Rattle.condition_sheets.specs.Report.{refused_situation};
ghost use Rattle.condition_sheets.specs.Taking.{opened_condition, by_reading, step_of, placed, place_read};
ghost use Rattle.condition_sheets.specs.Taking.{places_after, is_over, writing_told, writing_kept};
ghost use Rattle.condition_sheets.specs.Taking.{report_told, report_kept, finishing, finish_left};

use campaign_state::Campaign;
use desk_line::Finished;
use refusal::Refusal;
use sheet_text::Reading;

// The refusal that has a column.
const MALFORMED: u64 = 9;

// How many campaigns are in their places; or the number of the situation at fault, its sheet's line and column or 0,
// and the refusal.
pub type Situations = Result<u64, (u64, u64, u64, Refusal)>;

// No campaign yet; or 18 for no sheet or more than 64, which is no situation's.
pub fn open(number: u64) -> Situations
    ensures { result ≡ opened_condition number }
{
    if !truth::both(1 <= number, number <= 64) {
        return Err((0, 0, 0, Refusal::Situations));
    }
    Ok(0)
}

fn by_reading(n: u64, r: Reading) -> Situations
    requires { n < 64 }
    ensures { result ≡ by_reading n r }
{
    match r {
        Reading::Read(_) => Ok(n + 1),
        Reading::Stopped(line, column, x) => Err((n + 1, line, column, x)),
        Reading::Waiting(_, _) => Err((n + 1, 0, 0, Refusal::BrokenState)),
    }
}

// The situations with that of a sheet more, whose reading ended so: its campaign is the next, or it is refused by its
// number, the line and the column. What was refused stays; a sheet after 64 is 18.
pub fn add(a: Situations, r: Reading) -> Situations
    ensures { result ≡ step_of a r }
{
    match a {
        Err((situation, line, column, x)) => Err((situation, line, column, x)),
        Ok(n) => {
            if n >= 64 {
                return Err((0, 0, 0, Refusal::Situations));
            }
            by_reading(n, r)
        }
    }
}

fn put(campaigns: [Campaign; 64], n: u64, c: Campaign) -> [Campaign; 64]
    ensures { result ≡ placed n c campaigns }
{
    let mut places = campaigns;
    if n < 64 {
        places[n as usize] = c;
    }
    places
}

fn put_read(campaigns: [Campaign; 64], n: u64, r: Reading) -> [Campaign; 64]
    ensures { result ≡ place_read n r campaigns }
{
    match r {
        Reading::Read(c) => put(campaigns, n, c),
        Reading::Stopped(_, _, _) => campaigns,
        Reading::Waiting(_, _) => campaigns,
    }
}

// The places of the campaigns with that of the sheet: it goes to the next of them.
pub fn place(campaigns: [Campaign; 64], a: Situations, r: Reading) -> [Campaign; 64]
    ensures { result ≡ places_after a r campaigns }
{
    match a {
        Ok(n) => put_read(campaigns, n, r),
        Err(_) => campaigns,
    }
}

// Whether a sheet was refused: nothing that follows changes it.
pub fn is_over(a: Situations) -> bool
    ensures { result ≡ is_over a }
{
    a.is_err()
}

// The refused line: the situation, its sheet's line, the number and, for 9, the column.
fn refuse(situation: u64, line: u64, column: u64, r: Refusal, out: &mut [u8]) -> Finished
    ensures value { result ≡ putting (refused_situation situation line column r) out.old }
    ensures out_after { out.new ≡ put_left (refused_situation situation line column r) out.old }
{
    let number = refusal::number(r);
    let more = (number == MALFORMED).then_some(column);
    sheet_fault::refuse(situation, line, number, more, out)
}

fn put_writing(w: Result<u64, Refusal>, out: &mut [u8]) -> Finished
    ensures value { result ≡ writing_told w out.old }
    ensures out_after { out.new ≡ writing_kept w out.old }
{
    match w {
        Ok(n) => Finished {
            put: n as usize,
            end: desk_line::READ,
        },
        Err(r) => refuse(0, 0, 0, r, out),
    }
}

fn report(campaigns: [Campaign; 64], n: u64, out: &mut [u8]) -> Finished
    ensures value { result ≡ report_told n campaigns out.old }
    ensures out_after { out.new ≡ report_kept n campaigns out.old }
{
    let w = campaign_report::write(campaigns, n as usize, out);
    put_writing(w, out)
}

// Writes what is said of the sheets to the start of `out`: the report on the first campaigns of `campaigns`, as many as
// were taken; or the refused line, with the number of the situation at fault or 0, its sheet's line or 0, the refusal's
// number, and after 9 the column. Without room for the report the refusal is 7, which is no situation's.
pub fn finish(a: Situations, campaigns: [Campaign; 64], out: &mut [u8]) -> Finished
    ensures value { result ≡ finishing a campaigns out.old }
    ensures out_after { out.new ≡ finish_left a campaigns out.old }
{
    match a {
        Ok(n) => report(campaigns, n, out),
        Err((situation, line, column, r)) => refuse(situation, line, column, r, out),
    }
}
