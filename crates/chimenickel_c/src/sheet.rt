// The functions of `capi_sheet` and `capi_sheet_records`, exported.

ghost use Rattle.std.specs.Prelude.{◌≡◌, []};
ghost use Rattle.capi.specs.Told.{told};
ghost use Rattle.capi_sheet.specs.Told.{sheet_column, sheet_line, sheet_read};
ghost use Rattle.capi_sheet_records.specs.Told.{records_column, records_left, records_line, records_read};
ghost use Rattle.capi_sheet_records.specs.Told.{records_standard, sheet_written};

// The campaign of a whole job sheet in `state`; or refusal 8 for an array of another length, else the sheet's first
// refusal, with its line in `line` and its column, or 0, in `column`.
#[unsafe(no_mangle)]
pub extern "C" fn chim_sheet_read(
    text: &[u8],
    state: &mut [u64],
    line: &mut u64,
    column: &mut u64,
    carried: &mut u64,
) -> u64
    ensures state_after { told result carried.new state.new
        ≡ sheet_read text.now state.old }
    ensures line_after { line.new ≡ sheet_line text.now state.old }
    ensures column_after { column.new ≡ sheet_column text.now state.old }
{
    capi_sheet::chim_sheet_read(text, state, line, column, carried)
}

// The sheet of a standard and its records in `out`, its bytes in `carried`; or refusal 1 with item 5, record by
// record 4, 3, 5, 6, then 7 with the bytes needed.
#[unsafe(no_mangle)]
pub extern "C" fn chim_sheet_write(
    standard: u64,
    records: &[i32],
    out: &mut [u8],
    carried: &mut u64,
) -> u64
    ensures { told result carried.new out.new
        ≡ sheet_written standard records.now out.old }
{
    capi_sheet_records::chim_sheet_write(standard, records, out, carried)
}

// The records of a sheet in `records`, their number in `carried` and the sheet's standard in `standard`; or the
// sheet's first refusal, with its line in `line` and its column, or 0, in `column`, then 7 with the places needed, on
// no line.
#[unsafe(no_mangle)]
pub extern "C" fn chim_sheet_records(
    text: &[u8],
    records: &mut [i32],
    standard: &mut u64,
    line: &mut u64,
    column: &mut u64,
    carried: &mut u64,
) -> u64
    ensures carried_after { told result carried.new [] ≡ records_read text.now records.old }
    ensures records_after { records.new ≡ records_left text.now records.old }
    ensures standard_after { standard.new ≡ records_standard text.now records.old }
    ensures line_after { line.new ≡ records_line text.now records.old }
    ensures column_after { column.new ≡ records_column text.now records.old }
{
    capi_sheet_records::chim_sheet_records(text, records, standard, line, column, carried)
}
