// The rate beyond the records, for C: 0 or a refusal number is answered, the three times are written, and the letter,
// or what goes with the refusal, is written to `carried`.
#![tactic(auto)]

ghost use Rattle.std.specs.Prelude.{◌≡◌};
ghost use Rattle.capi.specs.Told.{told};
ghost use Rattle.capi_reach.specs.Told.{beyond_told, letter_code, of_times};

use peak_reach::{Letter, Times};
use refusal::Refusal;

const TIMES_NUMBERS: usize = 3;

fn of_times(t: Times) -> [u64; 3]
    ensures { result ≡ of_times t }
{
    [t.estimate, t.accepted, t.rejected]
}

fn letter_code(l: Letter) -> u64
    ensures { result ≡ letter_code l }
{
    match l {
        Letter::Accept => 1,
        Letter::Reject => 2,
        Letter::Continue => 3,
    }
}

// The three times of peaks that lie downwards in `times`, and the letter for the standard in `carried`: 1 accepted,
// 2 rejected, 3 continue. Refusals 8 for a `times` of another length, 1 (items 1, 3 and 5), 16, 17 with the first place
// at fault, 19, 20 with the k-th peak, 21.
#[tactic(auto, unfolding(crate::specs::Told::beyond_told, crate::specs::Told::reach_told))]
pub fn chim_extrapolate(
    peaks: &[u32],
    k: u64,
    level: u64,
    step: u64,
    samples: u64,
    standard: u64,
    times: &mut [u64],
    carried: &mut u64,
) -> u64
    ensures { told result carried.new times.new
        ≡ beyond_told peaks.now k level step samples standard times.old }
{
    if times.len() != TIMES_NUMBERS {
        return capi::refuse(Refusal::BrokenState, carried);
    }
    let a = peak_reach::extrapolate(peaks, k, level, step, samples, standard);
    match a {
        Ok((t, l)) => {
            let numbers = of_times(t);
            capi::put(&numbers, times);
            capi::give(letter_code(l), carried)
        }
        Err(f) => capi::refuse(f, carried),
    }
}
