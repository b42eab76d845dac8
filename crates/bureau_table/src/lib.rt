// The bench: one table of 32 places that two bureaus share (document 02, request 9). Here are the types alone: specs/
// says what a call answers and leaves, proofs/ what follows from it.
#![tactic(auto)]

use campaign_state::Campaign;
use campaign_verdict::{Rates, Verdict};
use record_end::Outcome;
use refusal::Refusal;

// Bureau 1 or 2 and its campaign; or 0 and all zeros.
#[derive(Clone, Copy, PartialEq, Eq)]
pub struct Place {
    pub owner: u64,
    pub campaign: Campaign,
}

// What the owner of a place may ask for: enter what a campaign takes of a record's result, the verdict, the rates,
// give the place back.
#[derive(Clone, Copy)]
pub enum Work {
    Enter(Outcome),
    Judge,
    Rate,
    GiveBack,
}

// A job at the standard q; or work on the job in a place.
#[derive(Clone, Copy)]
pub enum Ask {
    Take(u64),
    On(u64, Work),
}

// A bureau, and what it asks.
#[derive(Clone, Copy)]
pub struct Call {
    pub bureau: u64,
    pub ask: Ask,
}

// What a bureau is told: the place of a new job; that an outcome is entered; the verdict; the rates, none without a
// record; that the place is free again.
#[derive(Clone, Copy)]
pub enum Reply {
    Placed(u64),
    Entered,
    Judged(Verdict),
    Rated(Option<Rates>),
    Freed,
}

// What work on a campaign answers, and what stands in its place then.
#[derive(Clone, Copy)]
pub struct Worked {
    pub answer: Result<Reply, Refusal>,
    pub place: Place,
}
