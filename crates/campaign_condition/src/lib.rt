// A loading condition, by document 02 [13]: up to 64 design situations, a campaign for each, and one answer for all
// of them. The campaigns come by value, so many of them as `number` says, at the start of 64 places; the places
// after them are not looked at.
#![tactic(auto)]

ghost use Rattle.std.specs.Prelude.{◌≡◌, ◌≤◌, take};
ghost use Rattle.campaign_condition.specs.Standing.{acceptance, rejection};
ghost use Rattle.campaign_condition.specs.Answers.{judging, lower, said_of, seen_of};

use campaign_state::Campaign;
use campaign_verdict::Verdict;
use refusal::Refusal;

// The most design situations of a loading condition.
pub const MOST_SITUATIONS: usize = 64;

#[derive(Clone, Copy)]
pub enum Standing {
    Accepted,
    Rejected,
    Open,
}

// Whether a campaign is rejected, and whether it is accepted.
#[derive(Clone, Copy)]
struct Told {
    rejected: bool,
    accepted: bool,
}

// What is seen of the campaigns, one after the other: the lowest broken one, counted from 1, or 0; whether one is
// rejected; whether all are accepted.
#[derive(Clone, Copy)]
struct Seen {
    broken: u64,
    rejected: bool,
    accepted: bool,
}

fn rejection(v: Verdict) -> bool
    ensures { result ≡ rejection v }
{
    match v {
        Verdict::Reject(_) => true,
        Verdict::Accept(_) => false,
        Verdict::Continue(_, _) => false,
        Verdict::NoRecord => false,
    }
}

fn acceptance(v: Verdict) -> bool
    ensures { result ≡ acceptance v }
{
    match v {
        Verdict::Accept(_) => true,
        Verdict::Reject(_) => false,
        Verdict::Continue(_, _) => false,
        Verdict::NoRecord => false,
    }
}

// What the verdict on a campaign says.
fn said(c: Campaign) -> Told
    ensures { result ≡ said_of c }
{
    match campaign_verdict::judge(c) {
        Ok(v) => Told {
            rejected: rejection(v),
            accepted: acceptance(v),
        },
        Err(_) => Told {
            rejected: false,
            accepted: false,
        },
    }
}

// The lowest broken situation, after one more.
fn lowest(broken: u64, number: u64, c: Campaign) -> u64
    ensures { result ≡ lower broken number c }
{
    if broken != 0 {
        return broken;
    }
    if campaign_state::sound(c) {
        return 0;
    }
    number
}

// Every campaign, looked at.
fn look(campaigns: [Campaign; 64], number: usize) -> Seen
    requires { number ≤ 64 }
    ensures { result ≡ seen_of (take number campaigns) }
{
    let mut broken: u64 = 0;
    let mut one: bool = false;
    let mut all: bool = true;
    for i in 0..number {
        let c = campaigns[i];
        broken = lowest(broken, (i as u64) + 1, c);
        let v = said(c);
        one = truth::either(one, v.rejected);
        all = truth::both(all, v.accepted);
    }
    Seen {
        broken: broken,
        rejected: one,
        accepted: all,
    }
}

// Where the loading condition stands: rejected if a campaign is, accepted if all are, else open. Or refusal 18 for no
// campaign or more than 64, then 8 with the lowest situation whose campaign breaks a relation.
pub fn judge(campaigns: [Campaign; 64], number: usize) -> Result<Standing, Refusal>
    ensures { result ≡ judging number (take number campaigns) }
{
    if !truth::both(1 <= number, number <= MOST_SITUATIONS) {
        return Err(Refusal::Situations);
    }
    let s = look(campaigns, number);
    if s.broken != 0 {
        return Err(Refusal::Situation(s.broken));
    }
    if s.rejected {
        return Ok(Standing::Rejected);
    }
    if s.accepted {
        return Ok(Standing::Accepted);
    }
    Ok(Standing::Open)
}
