// What a pass over the peaks of a record holds (document 02, request 11): the open stretch of peaks, and of the peaks
// that stretches keep the open chain. Two passes go from peak to peak with it: over samples that lie in memory
// (`peak_envelope`), and over samples that come in pieces (`peak_stream`).
#![tactic(auto)]

ghost use Rattle.std.specs.Prelude.{◌≡◌, ◌<◌, set};
ghost use Rattle.peak_groups.specs.Machine.{empty, turned, gave};
ghost use Rattle.peak_machine.specs.Step.{met, chains_after, stepped, advanced, roomy, fresh, Fits};

use peak_groups::{Group, Peak};

// A pass between two peaks: peaks in stretches, and the peaks kept of those in chains.
#[derive(Clone, Copy)]
pub struct Envelope {
    pub stretches: Group,
    pub chains: Group,
}

// More groups than a record has samples.
const MANY: u64 = 20_000_000;

fn empty() -> Group
    ensures { result ≡ empty }
{
    let none = Peak {
        below: false,
        size: 0,
        time: 0,
    };
    Group {
        opened: 0,
        last: none,
        best: none,
    }
}

// One member more: it joins the open group, or opens one.
#[tactic(auto, unfolding(peak_groups::specs::Machine::turned))]
fn turn(joins: bool, g: Group, y: Peak) -> Group
    requires { g.opened < 20000000 }
    ensures { result ≡ turned joins g y }
{
    if 0 < g.opened && joins {
        Group {
            last: y,
            best: peak_groups::larger(g.best, y),
            ..g
        }
    } else {
        Group {
            opened: g.opened + 1,
            last: y,
            best: y,
        }
    }
}

// Whether a group that is not the first was closed from g to h.
fn gave(g: Group, h: Group) -> bool
    ensures { result ≡ gave g h }
{
    1 < g.opened && g.opened != h.opened
}

// The stretches with the peak p.
fn met(n: u32, s: u64, g: Group, p: Peak) -> Group
    requires { g.opened < 20000000 }
    ensures { result ≡ met n s g p }
{
    turn(peak_groups::in_stretch(n, s, g, p), g, p)
}

// The chains, with the largest of the stretch that was closed on the way to h, if it is high.
fn chains_after(n: u32, s: u64, decorrelation: u32, e: Envelope, h: Group) -> Group
    requires { e.chains.opened < 20000000 }
    ensures { result ≡ chains_after n s decorrelation e h }
{
    let g = e.chains;
    let best = e.stretches.best;
    if gave(e.stretches, h) && peak_groups::high(n, s, best) {
        turn(peak_groups::in_chain(decorrelation, g, best), g, best)
    } else {
        g
    }
}

// The pass with the peak p.
#[tactic(auto, unfolding(crate::specs::Step::stepped))]
fn step(n: u32, s: u64, decorrelation: u32, e: Envelope, p: Peak) -> Envelope
    requires { Fits 19999999 e }
    ensures { result ≡ stepped n s decorrelation e p }
{
    let stretches = met(n, s, e.stretches, p);
    Envelope {
        stretches,
        chains: chains_after(n, s, decorrelation, e, stretches),
    }
}

// Whether neither kind of group was numbered higher than a record can number it.
fn roomy(e: Envelope) -> bool
    ensures { result ≡ roomy e }
{
    e.stretches.opened < MANY && e.chains.opened < MANY
}

// The pass with the peak p, where n peaks have the sum s. One with more groups than a record has samples, which no
// record leads to, stays as it is.
#[tactic(auto, unfolding(crate::specs::Step::advanced))]
pub fn advance(n: u32, s: u64, decorrelation: u32, e: Envelope, p: Peak) -> Envelope
    ensures { result ≡ advanced n s decorrelation e p }
{
    if roomy(e) {
        step(n, s, decorrelation, e, p)
    } else {
        e
    }
}

// A pass before the first peak.
pub fn fresh() -> Envelope
    ensures { result ≡ fresh }
{
    Envelope {
        stretches: empty(),
        chains: empty(),
    }
}

// Puts a figure into a place of a slice, if there is such a place.
pub fn place(slice: &mut [u32], k: usize, v: u32)
    ensures { slice.new ≡ set slice.old k v }
{
    // no plainer: by `get_mut` the proof does not learn what the slice holds where there is no such place
    if k < slice.len() {
        slice[k] = v;
    }
}
