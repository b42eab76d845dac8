// The survey of a bench's table, place by place and by value: whether every place keeps its relations, which is the
// lowest free one, and how many places each bureau has. Nearly all the time of a call is spent here, so a place is
// told apart by its owner first.
#![tactic(auto)]

ghost use Rattle.std.specs.Prelude.{◌≡◌};
ghost use Rattle.bureau_table.specs.Table.{zeros};
ghost use Rattle.bureau_survey.specs.Survey.{more, surveyed, unseen};

use bureau_table::Place;
use campaign_state::Campaign;

// What was found so far: whether every place is as it should be, the lowest free place if one was found, and how many
// places each bureau has, up to 17.
#[derive(Clone, Copy)]
pub struct Seen {
    pub whole: bool,
    pub found: bool,
    pub lowest: u64,
    pub first: u64,
    pub second: u64,
}

fn zeros(c: Campaign) -> bool
    ensures { result ≡ zeros c }
{
    truth::both(
        c.standard == 0,
        truth::both(
            c.records == 0,
            truth::both(c.failures == 0, truth::both(c.exposure == 0, !c.failed)),
        ),
    )
}

// One more, up to 17.
fn more(c: u64) -> u64
    ensures { result ≡ more c }
{
    if c > 16 {
        return c;
    }
    c + 1
}

// Before any place is looked at.
pub fn unseen() -> Seen
    ensures { result ≡ unseen }
{
    Seen {
        whole: true,
        found: false,
        lowest: 0,
        first: 0,
        second: 0,
    }
}

// After place i, which is p.
pub fn look(s: Seen, i: usize, p: Place) -> Seen
    ensures { result ≡ surveyed s i p }
{
    let c = p.campaign;
    if p.owner == 0 {
        return Seen {
            whole: truth::both(s.whole, zeros(c)),
            found: true,
            lowest: truth::pick(s.found, s.lowest, i as u64),
            first: s.first,
            second: s.second,
        };
    }
    if p.owner == 1 {
        return Seen {
            whole: truth::both(s.whole, campaign_state::sound(c)),
            found: s.found,
            lowest: s.lowest,
            first: more(s.first),
            second: s.second,
        };
    }
    if p.owner == 2 {
        return Seen {
            whole: truth::both(s.whole, campaign_state::sound(c)),
            found: s.found,
            lowest: s.lowest,
            first: s.first,
            second: more(s.second),
        };
    }
    Seen {
        whole: false,
        found: s.found,
        lowest: s.lowest,
        first: s.first,
        second: s.second,
    }
}
