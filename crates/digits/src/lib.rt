// Numbers out of text: decimal and hexadecimal, read within limits, and where their digits stand. Every function has an answer for all
// bytes and numbers, looks at each byte at most once (where zeros are refused, at the first once more) and stops at the first that settles
// the answer.
#![tactic(auto)]

ghost use Rattle.std.specs.Prelude.{◌≡◌, ◌+◌, ◌*◌};
ghost use Rattle.digits.specs.Reading.{digit_in, read_in, has_leading_zero, read_number, at_least, read_hex8};
ghost use Rattle.digits.specs.Standing.{Stands};

use scan::Span;

// Whether zeros may stand before the first digit that counts.
#[derive(Clone, Copy, PartialEq, Eq, Debug)]
pub enum Zeros {
    Allowed,
    Refused,
}

// What a byte counts as a digit of a base up to 16. A `match` over ranges takes four instructions more for each byte.
fn digit_in(base: u8, b: u8) -> Option<u8>
    ensures { result ≡ digit_in base b }
{
    let d = if (b'0' <= b) & (b <= b'9') {
        b - b'0'
    } else if (b'A' <= b) & (b <= b'F') {
        b - (b'A' - 10)
    } else if (b'a' <= b) & (b <= b'f') {
        b - (b'a' - 10)
    } else {
        return None;
    };
    (d < base).then_some(d)
}

// The number v with one digit more.
fn with_digit(v: u32, base: u8, d: u8) -> u64
    ensures { result ≡ v * base + d }
{
    (v as u64) * (base as u64) + (d as u64)
}

// One to `most` digits of the base that say at most `limit`.
fn number_in(base: u8, s: &[u8], most: usize, limit: u32) -> Option<u32>
    ensures { result ≡ read_in base most limit s.now }
{
    if s.is_empty() || most < s.len() {
        return None;
    }
    let mut v: u32 = 0;
    for b in s {
        let next = with_digit(v, base, digit_in(base, *b)?);
        if (limit as u64) < next {
            return None;
        }
        v = next as u32;
    }
    Some(v)
}

fn has_leading_zero(s: &[u8]) -> bool
    ensures { result ≡ has_leading_zero s.now }
{
    1 < s.len() && s[0] == b'0'
}

// The decimal number that the whole text is, of one to `most` digits and at most `limit`.
#[tactic(auto, unfolding(crate::specs::Reading::read_number))]
pub fn number(s: &[u8], zeros: Zeros, most: usize, limit: u32) -> Option<u32>
    ensures { result ≡ read_number zeros most limit s.now }
{
    if zeros == Zeros::Refused && has_leading_zero(s) {
        return None;
    }
    number_in(10, s, most, limit)
}

// Where in `s` the digits stand of the number that the whole text at a place is, in the base, within the same limits.
pub fn digits_at(base: u8, s: &[u8], place: Span, most: usize, limit: u32) -> Option<Span>
    ensures { Stands base most limit s.now place result }
{
    let text = s.get(place.start..place.end)?;
    number_in(base, text, most, limit)
        .is_some()
        .then_some(place)
}

// What was read, where it is no less than `least`.
pub fn at_least(least: u32, read: Option<u32>) -> Option<u32>
    ensures { result ≡ at_least least read }
{
    read.filter(|v| least <= *v)
}

// The number that the whole text is, of eight hexadecimal digits of either case.
pub fn hex_number(s: &[u8]) -> Option<u32>
    ensures { result ≡ read_hex8 s.now }
{
    if s.len() == 8 {
        number_in(16, s, 8, u32::MAX)
    } else {
        None
    }
}
