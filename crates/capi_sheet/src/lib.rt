// The job sheet for C: a whole text read into a campaign's array. A refusal leaves the array as it stood.
#![tactic(auto)]

ghost use Rattle.std.specs.Prelude.{◌≡◌};
ghost use Rattle.capi.specs.Told.{told};
ghost use Rattle.capi_sheet.specs.Told.{answer_of, column_of, line_of, sheet_column, sheet_line, sheet_read};

use campaign_state::Campaign;
use refusal::Refusal;
use sheet_line::Sheet;
use sheet_text::Reading;

// What the reading of a whole sheet answers.
fn ended(end: Reading) -> Result<Campaign, Refusal>
    ensures { result ≡ answer_of end }
{
    match end {
        Reading::Read(c) => Ok(c),
        Reading::Stopped(_, _, f) => Err(f),
        Reading::Waiting(_, _) => Err(Refusal::BrokenState),
    }
}

// The line on which the reading stopped, 0 if it did not.
fn stopped_on(end: Reading) -> u64
    ensures { result ≡ line_of end }
{
    match end {
        Reading::Read(_) => 0,
        Reading::Stopped(line, _, _) => line,
        Reading::Waiting(_, _) => 0,
    }
}

// The column of its fault, 0 for none.
fn column_of(end: Reading) -> u64
    ensures { result ≡ column_of end }
{
    match end {
        Reading::Read(_) => 0,
        Reading::Stopped(_, column, _) => column,
        Reading::Waiting(_, _) => 0,
    }
}

// The campaign of a whole job sheet in `state`; or refusal 8 for an array of another length, else the sheet's first
// refusal, with its line in `line` and its column, or 0, in `column`.
#[tactic(auto, unfolding(sheet_text::specs::Sheet::meaning, sheet_text::specs::Sheet::reading_end, crate::specs::Told::sheet_line, crate::specs::Told::sheet_column))]
pub fn chim_sheet_read(
    text: &[u8],
    state: &mut [u64],
    line: &mut u64,
    column: &mut u64,
    carried: &mut u64,
) -> u64
    ensures state_after { told result carried.new state.new
        ≡ sheet_read text.now state.old }
    ensures line_after { line.new ≡ sheet_line text.now state.old }
    ensures column_after { column.new ≡ sheet_column text.now state.old }
{
    if state.len() != capi::CAMPAIGN_NUMBERS {
        *line = 0;
        *column = 0;
        return capi::refuse(Refusal::BrokenState, carried);
    }
    let end = sheet_text::read(Sheet::Fresh, text, false);
    *line = stopped_on(end);
    *column = column_of(end);
    capi::keep_campaign(ended(end), state, carried)
}
