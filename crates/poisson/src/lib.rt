// The quantile table of document 01: for a count from 1 to 64, the bounds of the expected failures in millionths.
// Two constant arrays; that every row meets 01's rule is computed once over each table by the checker.
#![tactic(auto)]

ghost use Rattle.std.specs.Prelude.{◌≡◌};
ghost use Rattle.poisson.specs.Rows.{UpperRow, LowerRow};
ghost use Rattle.poisson.specs.Tables.{row_of};

const UPPER: [u32; 64] = [
    3688880, 5571644, 7224688, 8767274, 10241589, 11668333, 13059475, 14422676, 15763190, 17084804,
    18390357, 19682039, 20961586, 22230396, 23489622, 24740219, 25982998, 27218647, 28447761,
    29670854, 30888378, 32100731, 33308265, 34511293, 35710098, 36904932, 38096025, 39283583,
    40467796, 41648838, 42826866, 44002026, 45174453, 46344270, 47511593, 48676528, 49839175,
    50999627, 52157969, 53314284, 54468647, 55621130, 56771799, 57920718, 59067947, 60213541,
    61357554, 62500037, 63641037, 64780599, 65918767, 67055582, 68191082, 69325305, 70458287,
    71590060, 72720659, 73850112, 74978450, 76105702, 77231894, 78357052, 79481202, 80604368,
];

const LOWER: [u32; 64] = [
    25317, 242209, 618672, 1089865, 1623486, 2201894, 2814363, 3453832, 4115373, 4795388, 5491160,
    6200575, 6921952, 7653930, 8395386, 9145382, 9903126, 10667940, 11439241, 12216519, 12999330,
    13787282, 14580027, 15377252, 16178681, 16984063, 17793170, 18605796, 19421755, 20240874,
    21062995, 21887976, 22715681, 23545988, 24378782, 25213957, 26051414, 26891061, 27732812,
    28576586, 29422307, 30269905, 31119313, 31970467, 32823308, 33677781, 34533832, 35391410,
    36250469, 37110963, 37972849, 38836087, 39700636, 40566461, 41433526, 42301798, 43171243,
    44041831, 44913533, 45786320, 46660166, 47535044, 48410929, 49287798,
];

// Both where a row is read: a constant is put on the stack whole wherever one of its rows is looked up.
static UPPER_ROWS: [u32; 64] = UPPER;

static LOWER_ROWS: [u32; 64] = LOWER;

// Row n of a table whose first row is row 1; 0 outside 1 to 64.
fn row(table: &[u32; 64], n: u64) -> u32
    ensures { result ≡ row_of table.now n }
{
    match n {
        1..=64 => table[(n - 1) as usize],
        _ => 0,
    }
}

// Upper row n: the least expectation at which fewer than n failures are shown less than once in 40; 0 outside 1 to 64.
pub fn upper_row(n: u64) -> u32
    ensures { UpperRow n result }
{
    row(&UPPER_ROWS, n)
}

// Lower row n: the greatest expectation at which n or more failures are shown at most once in 40; 0 outside 1 to 64.
pub fn lower_row(n: u64) -> u32
    ensures { LowerRow n result }
{
    row(&LOWER_ROWS, n)
}
