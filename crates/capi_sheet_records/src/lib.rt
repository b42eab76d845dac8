// The job sheet written, and its records read, for C. Each function answers 0 or the refusal number and writes what
// goes with it to `carried`; a refusal leaves the lent memory as it stood.
#![tactic(auto)]

ghost use Rattle.std.specs.Prelude.{◌≡◌, []};
ghost use Rattle.capi.specs.Told.{told};
ghost use Rattle.capi_sheet_records.specs.Told.{records_column, records_left, records_line, records_read};
ghost use Rattle.capi_sheet_records.specs.Told.{records_standard, sheet_written};

// The sheet of a standard and its records in `out`, its bytes in `carried`; or refusal 1 with item 5, record by
// record 4, 3, 5, 6, then 7 with the bytes needed.
#[tactic(auto, unfolding(capi::specs::Told::write_told))]
pub fn chim_sheet_write(standard: u64, records: &[i32], out: &mut [u8], carried: &mut u64) -> u64
    ensures { told result carried.new out.new
        ≡ sheet_written standard records.now out.old }
{
    capi::tell_writing(sheet_records::write(standard, records, out), carried)
}

// The records of a sheet in `records`, their number in `carried` and the sheet's standard in `standard`; or the
// sheet's first refusal, with its line in `line` and its column, or 0, in `column`, then 7 with the places needed, on
// no line.
#[tactic(auto, unfolding(crate::specs::Told::read_told))]
pub fn chim_sheet_records(
    text: &[u8],
    records: &mut [i32],
    standard: &mut u64,
    line: &mut u64,
    column: &mut u64,
    carried: &mut u64,
) -> u64
    ensures carried_after { told result carried.new [] ≡ records_read text.now records.old }
    ensures records_after { records.new ≡ records_left text.now records.old }
    ensures standard_after { standard.new ≡ records_standard text.now records.old }
    ensures line_after { line.new ≡ records_line text.now records.old }
    ensures column_after { column.new ≡ records_column text.now records.old }
{
    match sheet_records::records(text, records) {
        Ok((q, n)) => {
            *standard = q;
            *line = 0;
            *column = 0;
            capi::give(n, carried)
        }
        Err((l, k, f)) => {
            *standard = 0;
            *line = l;
            *column = k;
            capi::refuse(f, carried)
        }
    }
}
