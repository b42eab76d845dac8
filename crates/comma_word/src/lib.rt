// Plain degrees, by document 02 [1]: 4.250 and 41.500 before an LF, the forms that simulators write, read with no loop;
// their length and their thousandths are two answers of one number each, since an enum that goes through memory would
// keep the reader of the next line waiting. Beside them, without code, what a quick reader of whole files rests on
// (`comma_read`): bytes and digits side by side in 64 bits (specs/Word, specs/Dial), held against a form at once
// (specs/Form), and what masks and sums say of them.
#![tactic(auto)]

ghost use Rattle.std.specs.Prelude.{◌≡◌, [], ◌∷◌, ◌+◌, ◌-◌, ◌≤◌, ◌<◌, length};
ghost use Rattle.decimal.specs.Decimal.{zero_byte, all_digits, value_of};
ghost use Rattle.comma_word.specs.Plain.{short_at, long_at, plain_bytes, short_size, long_size, plain_size};

const ZERO: u8 = b'0';

const POINT: u8 = b'.';

const LF: u8 = b'\n';

// Whether the four are digits. No `all`, which branches after each byte.
fn four_digits(a: u8, b: u8, c: u8, d: u8) -> bool
    ensures { result ≡ all_digits (a ∷ b ∷ c ∷ d ∷ []) }
{
    truth::both(
        decimal::is_digit(a),
        truth::both(
            decimal::is_digit(b),
            truth::both(
                decimal::is_digit(c),
                truth::both(decimal::is_digit(d), true),
            ),
        ),
    )
}

// Whether 4.250 and an LF stand at `at`, but for the point.
fn is_short(s: &[u8], at: usize) -> bool
    requires { at + 7 ≤ length s.now }
    ensures { result ≡ short_at s.now at }
{
    truth::both(
        four_digits(s[at], s[at + 2], s[at + 3], s[at + 4]),
        s[at + 5] == LF,
    )
}

// Whether 41.500 and an LF stand at `at`, but for the point.
fn is_long(s: &[u8], at: usize) -> bool
    requires { at + 7 ≤ length s.now }
    ensures { result ≡ long_at s.now at }
{
    truth::both(
        truth::both(decimal::is_digit(s[at]), s[at] != ZERO),
        truth::both(
            four_digits(s[at + 1], s[at + 3], s[at + 4], s[at + 5]),
            s[at + 6] == LF,
        ),
    )
}

// How many bytes the plain degrees at `at` have; 0 where others stand there.
pub fn bytes_at(s: &[u8], at: usize) -> usize
    ensures { result ≡ plain_bytes s.now at }
{
    if !text::has_room(s.len(), at, 7) {
        return 0;
    }
    if s[at + 2] == POINT {
        if is_long(s, at) {
            return 6;
        }
        return 0;
    }
    if s[at + 1] == POINT {
        if is_short(s, at) {
            return 5;
        }
        return 0;
    }
    0
}

// What a byte is worth as a digit, 0 for one below the digits.
fn digit_value(b: u8) -> u64
    ensures { (result ≡ b - zero_byte) × (result < 256) }
{
    if b < ZERO {
        return 0;
    }
    (b - ZERO) as u64
}

fn four_value(a: u8, b: u8, c: u8, d: u8) -> u64
    ensures { (result ≡ value_of (a ∷ b ∷ c ∷ d ∷ [])) × (result < 1000000) }
{
    digit_value(a) * 1000 + digit_value(b) * 100 + digit_value(c) * 10 + digit_value(d)
}

// The thousandths of 4.250 at `at`.
fn short_size(s: &[u8], at: usize) -> u64
    requires { at + 7 ≤ length s.now }
    ensures { result ≡ short_size s.now at }
{
    four_value(s[at], s[at + 2], s[at + 3], s[at + 4])
}

// The thousandths of 41.500 at `at`.
fn long_size(s: &[u8], at: usize) -> u64
    requires { at + 7 ≤ length s.now }
    ensures { result ≡ long_size s.now at }
{
    digit_value(s[at]) * 10000 + four_value(s[at + 1], s[at + 3], s[at + 4], s[at + 5])
}

// The thousandths of the plain degrees of `bytes` bytes at `at`. Where others stand there their bytes are taken all
// the same, so that the form is not tested twice; 0 where less than seven bytes do.
pub fn size_at(s: &[u8], at: usize, bytes: usize) -> u64
    ensures { result ≡ plain_size s.now at bytes }
{
    if !text::has_room(s.len(), at, 7) {
        return 0;
    }
    if bytes == 5 {
        return short_size(s, at);
    }
    long_size(s, at)
}
