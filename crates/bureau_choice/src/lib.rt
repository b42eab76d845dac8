// A call at the bureaus' table, by value, once the table is surveyed: a place is chosen by what was seen, and the job
// in it is worked on; its owner may ask for a record's outcome to be entered, the verdict, the rates, and to give the
// place back. All refusals are decided here. Whoever holds the table, as places or as numbers, has these steps to
// take (proofs/Serves.antt: they come to what the call is said to answer and leave).
#![tactic(auto)]

ghost use Rattle.std.specs.Prelude.{◌≡◌, cond, eqb, Ok, Err};
ghost use Rattle.bureau_table.specs.Table.{free, owned, is_bureau};
ghost use Rattle.bureau_table.specs.Calls.{entry, rates_answer, verdict_answer, worked};
ghost use Rattle.refusal.specs.declared.Refusal.TheVariants.{NotItsOwn};
ghost use Rattle.bureau_table.specs.declared.Ask.TheVariants.{Take};
ghost use Rattle.bureau_choice.specs.Steps.{acted, acting, choosing, chosen, fine, opening, own_count, refusing};
ghost use Rattle.bureau_choice.specs.Steps.{taking};
ghost use Rattle.bureau_table.specs.declared.Reply.TheVariants.{Freed};

use bureau_survey::Seen;
use bureau_table::{Ask, Call, Place, Reply, Work, Worked};
use campaign_state::Campaign;
use campaign_verdict::{Rates, Verdict};
use refusal::Refusal;

fn entry(b: u64, c: Campaign, a: Result<Campaign, Refusal>) -> Worked
    ensures { result ≡ entry b c a }
{
    match a {
        Ok(d) => Worked {
            answer: Ok(Reply::Entered),
            place: Place {
                owner: b,
                campaign: d,
            },
        },
        Err(r) => Worked {
            answer: Err(r),
            place: Place {
                owner: b,
                campaign: c,
            },
        },
    }
}

fn verdict_answer(a: Result<Verdict, Refusal>) -> Result<Reply, Refusal>
    ensures { result ≡ verdict_answer a }
{
    Ok(Reply::Judged(a?))
}

fn rates_answer(a: Result<Option<Rates>, Refusal>) -> Result<Reply, Refusal>
    ensures { result ≡ rates_answer a }
{
    Ok(Reply::Rated(a?))
}

fn read(b: u64, c: Campaign, a: Result<Reply, Refusal>) -> Worked
    ensures { result ≡ record { answer = a; place = owned b c } }
{
    Worked {
        answer: a,
        place: Place {
            owner: b,
            campaign: c,
        },
    }
}

fn given_back() -> Worked
    ensures { result ≡ record { answer = (Ok Freed); place = free } }
{
    Worked {
        answer: Ok(Reply::Freed),
        place: Place {
            owner: 0,
            campaign: Campaign {
                standard: 0,
                records: 0,
                failures: 0,
                exposure: 0,
                failed: false,
            },
        },
    }
}

// The answer, and what stands in the place then: the campaign with the record entered, the campaign as it was, or
// nothing.
pub fn work(b: u64, c: Campaign, w: Work) -> Worked
    ensures { result ≡ worked b c w }
{
    match w {
        Work::Enter(o) => entry(b, c, c.enter(o)),
        Work::Judge => read(b, c, verdict_answer(campaign_verdict::judge(c))),
        Work::Rate => read(b, c, rates_answer(campaign_verdict::rate(c))),
        Work::GiveBack => given_back(),
    }
}

// The place to work on, past the table if there is none, and the answer unless the work says otherwise.
#[derive(Clone, Copy)]
pub struct Choice {
    pub at: usize,
    pub answer: Result<Reply, Refusal>,
}

fn is_bureau(b: u64) -> bool
    ensures { result ≡ is_bureau b }
{
    truth::either(b == 1, b == 2)
}

// No place of n.
fn refusing(n: usize, r: Refusal) -> Choice
    ensures { result ≡ refusing n r }
{
    Choice {
        at: n,
        answer: Err(r),
    }
}

fn own_count(s: Seen, b: u64) -> u64
    ensures { result ≡ own_count s b }
{
    truth::pick(b == 1, s.first, s.second)
}

fn opening(s: Seen, n: usize, a: Result<Campaign, Refusal>) -> Choice
    ensures { result ≡ opening s n a }
{
    match a {
        Ok(_) => Choice {
            at: s.lowest as usize,
            answer: Ok(Reply::Placed(s.lowest)),
        },
        Err(r) => refusing(n, r),
    }
}

fn taking(s: Seen, n: usize, b: u64, q: u64) -> Choice
    ensures { result ≡ choosing s n b (Take q) }
{
    if own_count(s, b) >= 16 {
        return refusing(n, Refusal::BureauFull);
    }
    opening(s, n, campaign_state::open(q))
}

fn choosing(s: Seen, n: usize, b: u64, ask: Ask) -> Choice
    ensures { result ≡ choosing s n b ask }
{
    match ask {
        Ask::Take(q) => taking(s, n, b, q),
        Ask::On(j, _) => Choice {
            at: j as usize,
            answer: Err(Refusal::NotItsOwn),
        },
    }
}

fn fine(s: Seen, n: usize) -> bool
    ensures { result ≡ fine s n }
{
    truth::both(
        n == 32,
        truth::both(s.whole, truth::both(s.first <= 16, s.second <= 16)),
    )
}

// What the call comes to, after the survey of n places: refusal 8, then 13, 14 or what opening refuses; else the
// place to work on.
pub fn choose(c: Call, s: Seen, n: usize) -> Choice
    ensures { result ≡ chosen c s n }
{
    if !fine(s, n) {
        return refusing(n, Refusal::BrokenState);
    }
    if !is_bureau(c.bureau) {
        return refusing(n, Refusal::NoBureau);
    }
    let ask = c.ask;
    choosing(s, n, c.bureau, ask)
}

fn placing(b: u64, p: Place, answer: Result<Reply, Refusal>, a: Result<Campaign, Refusal>) -> Worked
    ensures { result ≡ taking b p answer a }
{
    match a {
        Ok(c) => Worked {
            answer: answer,
            place: Place {
                owner: b,
                campaign: c,
            },
        },
        Err(r) => Worked {
            answer: Err(r),
            place: p,
        },
    }
}

fn working(b: u64, p: Place, w: Work) -> Worked
    ensures { result ≡ cond (eqb p.owner b) (worked b p.campaign w)
        (record { answer = Err NotItsOwn; place = p }) }
{
    if p.owner != b {
        return Worked {
            answer: Err(Refusal::NotItsOwn),
            place: p,
        };
    }
    let c = p.campaign;
    work(b, c, w)
}

fn acting(b: u64, p: Place, answer: Result<Reply, Refusal>, ask: Ask) -> Worked
    ensures { result ≡ acting b p answer ask }
{
    match ask {
        Ask::Take(q) => placing(b, p, answer, campaign_state::open(q)),
        Ask::On(_, w) => working(b, p, w),
    }
}

// The answer, and what stands in the chosen place, where p stands now: refusal 15, then document 01's.
pub fn act(c: Call, d: Choice, p: Place) -> Worked
    ensures { result ≡ acted c d p }
{
    let ask = c.ask;
    let answer = d.answer;
    acting(c.bureau, p, answer, ask)
}
