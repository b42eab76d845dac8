// Texts written into lent bytes: whole from a place on, or, where there is no room, not at all. The answer is the
// place after the text, so that writes follow one another; without room it is the place handed in. And a part of lent
// bytes moved to their front: what a reader through a fixed buffer does with a line that has begun and not ended yet.
// And a value put into its place of lent memory, where there is that place.
#![tactic(auto)]

ghost use Rattle.std.specs.Prelude.{◌≡◌, [], ◌∷◌, ◌+◌, leb, slice_set};
ghost use Rattle.text.specs.Front.{kept};
ghost use Rattle.text.specs.Write.{written, place_after};

use refusal::Refusal;

// Moves `count` bytes from `from` on to the start of `bytes`, whose rest stays; where there are not so many, nothing.
#[tactic(auto, unfolding(crate::specs::Front::kept))]
pub fn keep(bytes: &mut [u8], from: usize, count: usize)
    ensures { bytes.new ≡ kept from count bytes.old }
{
    if !has_room(bytes.len(), from, count) {
        return;
    }
    bytes.copy_within(from..from + count, 0);
}

// Whether `count` bytes from `at` on end within `len` bytes.
pub fn has_room(len: usize, at: usize, count: usize) -> bool
    ensures { result ≡ leb (at + count) len }
{
    if len < at {
        return false;
    }
    if len - at < count {
        return false;
    }
    true
}

// Writes `bytes` into `out` from `at` on.
#[tactic(auto, unfolding(crate::specs::Write::written, crate::specs::Write::place_after, crate::specs::Write::laid))]
pub fn write_bytes(bytes: &[u8], out: &mut [u8], at: usize) -> usize
    ensures value { result ≡ place_after out.old at bytes.now }
    ensures out_after { out.new ≡ written out.old at bytes.now }
{
    if !has_room(out.len(), at, bytes.len()) {
        return at;
    }
    let end = at + bytes.len();
    out[at..end].copy_from_slice(bytes);
    end
}

// Writes the one byte `b` into `out` at `at`.
#[tactic(auto, unfolding(crate::specs::Write::written, crate::specs::Write::place_after, crate::specs::Write::laid))]
pub fn write_byte(b: u8, out: &mut [u8], at: usize) -> usize
    ensures value { result ≡ place_after out.old at (b ∷ []) }
    ensures out_after { out.new ≡ written out.old at (b ∷ []) }
{
    if out.len() <= at {
        return at;
    }
    out[at] = b;
    at + 1
}

// Puts `x` into its place, where `places` has that place.
pub fn put<T: Copy>(x: T, places: &mut [T], i: usize)
    ensures { places.new ≡ slice_set places.old i x }
{
    if i < places.len() {
        places[i] = x;
    }
}
