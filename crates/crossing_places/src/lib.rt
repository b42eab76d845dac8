// Document 01, "Reading a record": its definitions over a whole list of samples in specs/, the laws of crossings in
// proofs/, and the one test that all passes over samples share.
#![tactic(auto)]

ghost use Rattle.std.specs.Prelude.{◌≡◌};
ghost use Rattle.crossing_places.specs.Reading.{rises};

use sample_channels::{Levels, Moment};

// Whether a level is crossed from x to y.
pub fn rises(levels: Levels, x: Moment, y: Moment) -> bool
    ensures { result ≡ rises levels x y }
{
    truth::both(
        !sample_channels::above(levels, x),
        sample_channels::above(levels, y),
    )
}
