// The tail of a list of peaks: the list sorted downwards, and the Hill sum over its k largest. The bureau hands out
// the sum; what a customer makes of it, the tail's index, is a division of his own.
#![tactic(auto)]

ghost use Rattle.std.specs.Prelude.{◌≡◌, ◌++◌, ◌≤◌, drop, length};
ghost use Rattle.std.specs.List.{prefix_len};
ghost use Rattle.sorting.specs.Sorting.{Sorted, count};
ghost use Rattle.peak_tail.specs.Fitting.{FitsTo, hill_within, peak_in_range, tail_outside};
ghost use Rattle.peak_tail.specs.Hill.{HillSum};
ghost use Rattle.peak_tail.specs.Steps.{SumOfFirst};

use refusal::Refusal;

pub const LONGEST_LIST: u64 = 4_096;

pub const HIGHEST_PEAK: u32 = 1_000_000;

// 16: a list of n peaks is too long, or k is outside 2 to n.
pub fn tail_outside(n: u64, k: u64) -> bool
    ensures { result ≡ tail_outside n k }
{
    truth::either(LONGEST_LIST < n, truth::either(k < 2, n < k))
}

fn peak_in_range(y: u32) -> bool
    ensures { result ≡ peak_in_range y }
{
    truth::both(1 <= y, y <= HIGHEST_PEAK)
}

// The place of the first peak that is 0 or too high, the list's length if there is none.
fn first_bad(peaks: &[u32]) -> usize
    ensures { result ≡ prefix_len peak_in_range peaks.now }
{
    peaks.iter().take_while(|y| peak_in_range(**y)).count()
}

// Copies the peaks to the start of `to`.
fn copy(peaks: &[u32], to: &mut [u32])
    requires { length peaks.now ≤ length to.old }
    ensures { to.new ≡ peaks.now ++ drop (length peaks.now) to.old }
{
    // by place: std's `copy_from_slice` would have the archive for C ask for `memmove`
    for i in 0..peaks.len() {
        to[i] = peaks[i];
    }
}

// The logarithms of Y(i) / Y(k) added up. The last, of Y(k) / Y(k), is 0.
fn sum_of_first(y: &[u32], k: usize) -> u64
    requires { (2 ≤ k) × (k ≤ length y.now) × (k ≤ 4096) }
    ensures { SumOfFirst y.now k result }
{
    let last = k - 1;
    let least = y[last];
    let mut sum: u64 = 0;
    for i in 0..last {
        sum += logarithm::log2(y[i], least);
    }
    sum
}

// The Hill sum over the first k of values that lie downwards; 0 where 16 is due.
pub fn hill_sum(y: &[u32], k: u64) -> u64
    ensures { result ≡ hill_within y.now k }
{
    if tail_outside(y.len() as u64, k) {
        return 0;
    }
    sum_of_first(y, k as usize)
}

// Sorts the values, none of which is 0, and sums over the k largest.
fn sum_of_largest(y: &mut [u32], k: usize) -> u64
    requires { (2 ≤ k) × (k ≤ length y.old) × (k ≤ 4096) × (count 0 y.old ≡ 0) }
    ensures { Sorted y.old y.new × HillSum y.new k result }
{
    sorting::sort(y);
    sum_of_first(y, k)
}

// The Hill sum over the k largest peaks, which then stand sorted downwards from the start of `sorted`, whose rest
// stays; or refusal 16, 17 with the first bad place, or 7 with the places needed, and `sorted` as it stood.
pub fn fit(peaks: &[u32], k: u64, sorted: &mut [u32]) -> Result<u64, Refusal>
    ensures { FitsTo peaks.now k sorted.old result sorted.new }
{
    let n = peaks.len();
    if tail_outside(n as u64, k) {
        return Err(Refusal::Tail);
    }
    let bad = first_bad(peaks);
    if bad < n {
        return Err(Refusal::Peak(bad as u64));
    }
    if sorted.len() < n {
        return Err(Refusal::Room(n as u64));
    }
    copy(peaks, sorted);
    let sum = sum_of_largest(&mut sorted[..n], k as usize);
    Ok(sum)
}
