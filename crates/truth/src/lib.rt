// And, or and a choice of two numbers as functions: each evaluates both sides, so a long test is one expression that
// meets its definition word for word, with no branches to take apart in the proof.
#![tactic(auto)]

ghost use Rattle.std.specs.Prelude.{◌≡◌, cond, ◌&&◌, ◌||◌};

pub fn both(b: bool, c: bool) -> bool
    ensures { result ≡ (b && c) }
{
    b & c
}

pub fn either(b: bool, c: bool) -> bool
    ensures { result ≡ (b || c) }
{
    b | c
}

pub fn pick(b: bool, x: u64, y: u64) -> u64
    ensures { result ≡ cond b x y }
{
    if b { x } else { y }
}
