// The quantile table as the proved code answers it, a line a row: which table, the count, the row. tests/rows holds
// these lines to an independent chi-squared program.
#![tactic(auto)]

// Writes a row. A write that fails is passed over, here and in all lines after it.
fn row(out: &impl Print, table: &str, n: u64, row: u32) {
    let _ = println!(out; "{table}\t{n}\t{row}");
}

fn main(rt: HostRuntime) {
    for n in 1..65 {
        row(&rt, "upper", n, poisson::upper_row(n));
        row(&rt, "lower", n, poisson::lower_row(n));
    }
}
