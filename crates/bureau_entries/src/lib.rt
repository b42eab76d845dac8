// A call served at the lent table: the clerk's steps (clerk) over a slice of places. Only the functions of this crate
// touch a table; none of them decides anything. `serve` takes any call; the five entries name theirs.
#![tactic(auto)]

ghost use Rattle.std.specs.Prelude.{◌≡◌};
ghost use Rattle.bureau_table.specs.declared.Ask.TheVariants.{On, Take};
ghost use Rattle.bureau_table.specs.declared.Work.TheVariants.{Enter, GiveBack, Judge, Rate};
ghost use Rattle.bureau_table.specs.Calls.{called};

use bureau_table::{Ask, Call, Place, Reply, Work};
use record_end::Outcome;
use refusal::Refusal;

// The call's answer; the table is as the call leaves it. Refusals 8, 13, 14 or 15, then document 01's.
pub fn serve(t: &mut [Place], c: Call) -> Result<Reply, Refusal>
    ensures { (result ≡ (called t.old c.bureau c.ask).answer)
        × (t.new ≡ (called t.old c.bureau c.ask).table) }
{
    let mut s = bureau_survey::unseen();
    for (i, place) in t.iter().enumerate() {
        s = bureau_survey::look(s, i, *place);
    }
    let d = bureau_choice::choose(c, s, t.len());
    let at = d.at;
    if at < t.len() {
        let w = bureau_choice::act(c, d, t[at]);
        t[at] = w.place;
        return w.answer;
    }
    d.answer
}

fn for_a_job(bureau: u64, standard: u64) -> Call
    ensures { result ≡ record { bureau = bureau; ask = Take standard } }
{
    Call {
        bureau: bureau,
        ask: Ask::Take(standard),
    }
}

fn for_a_verdict(bureau: u64, place: u64) -> Call
    ensures { result ≡ record { bureau = bureau; ask = On place Judge } }
{
    Call {
        bureau: bureau,
        ask: Ask::On(place, Work::Judge),
    }
}

fn for_rates(bureau: u64, place: u64) -> Call
    ensures { result ≡ record { bureau = bureau; ask = On place Rate } }
{
    Call {
        bureau: bureau,
        ask: Ask::On(place, Work::Rate),
    }
}

fn for_giving_back(bureau: u64, place: u64) -> Call
    ensures { result ≡ record { bureau = bureau; ask = On place GiveBack } }
{
    Call {
        bureau: bureau,
        ask: Ask::On(place, Work::GiveBack),
    }
}

fn for_entering(bureau: u64, place: u64, o: Outcome) -> Call
    ensures { result ≡ record { bureau = bureau; ask = On place (Enter o) } }
{
    Call {
        bureau: bureau,
        ask: Ask::On(place, Work::Enter(o)),
    }
}

// The entries that callers call. A table, a bureau and a place stand beside one another in four of them and in no
// struct: what `serve` takes of them is a `Call`.

// A job: the lowest free place, with a fresh campaign at this standard in it. Refusals 8, 13, 14, 1 with item 5.
pub fn take(t: &mut [Place], bureau: u64, standard: u64) -> Result<Reply, Refusal>
    ensures { (result ≡ (called t.old bureau (Take standard)).answer)
        × (t.new ≡ (called t.old bureau (Take standard)).table) }
{
    serve(t, for_a_job(bureau, standard))
}

// The verdict of the campaign in a place of the bureau. Refusals 8, 13, 15.
pub fn verdict(t: &mut [Place], bureau: u64, place: u64) -> Result<Reply, Refusal>
    ensures { (result ≡ (called t.old bureau (On place Judge)).answer)
        × (t.new ≡ (called t.old bureau (On place Judge)).table) }
{
    serve(t, for_a_verdict(bureau, place))
}

// The rates of the campaign in a place of the bureau. Refusals 8, 13, 15.
pub fn rates(t: &mut [Place], bureau: u64, place: u64) -> Result<Reply, Refusal>
    ensures { (result ≡ (called t.old bureau (On place Rate)).answer)
        × (t.new ≡ (called t.old bureau (On place Rate)).table) }
{
    serve(t, for_rates(bureau, place))
}

// The place is free and all zeros again. Refusals 8, 13, 15.
pub fn give_back(t: &mut [Place], bureau: u64, place: u64) -> Result<Reply, Refusal>
    ensures { (result ≡ (called t.old bureau (On place GiveBack)).answer)
        × (t.new ≡ (called t.old bureau (On place GiveBack)).table) }
{
    serve(t, for_giving_back(bureau, place))
}

// What a campaign takes of a record's result, entered into the campaign in a place of the bureau. Refusals 8, 13, 15,
// 8 for the result, 5, 6.
pub fn enter(t: &mut [Place], bureau: u64, place: u64, o: Outcome) -> Result<Reply, Refusal>
    ensures { (result ≡ (called t.old bureau (On place (Enter o))).answer)
        × (t.new ≡ (called t.old bureau (On place (Enter o))).table) }
{
    serve(t, for_entering(bureau, place, o))
}

// A table by value, and an answer.
#[derive(Clone, Copy)]
pub struct Served {
    pub places: [Place; 32],
    pub answer: Result<Reply, Refusal>,
}

// The call served at a table by value, which is lent to `serve` and handed back: for callers that keep their table in
// a local.
pub fn lent(t: [Place; 32], c: Call) -> Served
    ensures { (result.answer ≡ (called t c.bureau c.ask).answer)
        × (result.places ≡ (called t c.bureau c.ask).table) }
{
    let mut u = t;
    let r = serve(&mut u, c);
    Served {
        places: u,
        answer: r,
    }
}
