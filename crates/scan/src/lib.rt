// Looking at bytes: classes of bytes, the first byte of a class, two texts compared, outer spaces removed. Every function has an
// answer for all bytes and all places. A call looks at a byte at most twice, and copies none.
#![tactic(auto)]

ghost use Rattle.std.specs.Prelude.{◌≡◌, eqb};
ghost use Rattle.scan.specs.Lists.{all, is_name, is_text};
ghost use Rattle.scan.specs.Found.{FirstOf, FirstFrom, Trimmed, in_class, other_case};
ghost use Rattle.scan.specs.Text.{seen, are_alike, trim_end};

// A class of bytes, handed to a scan. It is no closure: the scans are public, promise their answer for every class and ask nothing of their
// caller, and a function that takes a closure has to ask that it can be called.
#[derive(Clone, Copy, PartialEq, Eq, Debug)]
pub enum Class {
    // One byte.
    Is(u8),
    // Any byte but one.
    Not(u8),
    // 0 to 9.
    Digit,
    // Letters, digits, hyphen, dot.
    Name,
    // Any other.
    NotName,
    // 32 to 126.
    Text,
    // Any other.
    NotText,
}

fn is_name(b: u8) -> bool
    ensures { result ≡ is_name b }
{
    b.is_ascii_alphanumeric() | (b == b'-') | (b == b'.')
}

fn is_text(b: u8) -> bool
    ensures { result ≡ is_text b }
{
    matches!(b, b' '..=b'~')
}

// Whether a byte is of the class.
fn in_class(c: Class, b: u8) -> bool
    ensures { result ≡ in_class c b }
{
    match c {
        Class::Is(x) => b == x,
        Class::Not(x) => b != x,
        Class::Digit => b.is_ascii_digit(),
        Class::Name => is_name(b),
        Class::NotName => !is_name(b),
        Class::Text => is_text(b),
        Class::NotText => !is_text(b),
    }
}

// The place of the first byte of the class, byte by byte.
fn first_among(s: &[u8], c: Class) -> usize
    ensures { FirstOf (in_class c) s.now result }
{
    s.iter().position(|b| in_class(c, *b)).unwrap_or(s.len())
}

// The place of the first byte that is x. Eight bytes are compared in a row before the end is looked for again. They are counted: taken by
// `as_chunks`, or sought by `position`, they cost a SETUP 120 to 150 instructions more.
fn first_is(s: &[u8], x: u8) -> usize
    ensures { FirstOf (in_class (Class.Is x)) s.now result }
{
    let mut at = 0;
    while 8 <= s.len() - at {
        for i in 0..8 {
            if s[at + i] == x {
                return at + i;
            }
        }
        at += 8;
    }
    at + first_among(&s[at..], Class::Is(x))
}

// Whether every byte is of the class. There is no early way out, so that many bytes can be looked at at once.
pub fn all_in(s: &[u8], c: Class) -> bool
    ensures { result ≡ all (in_class c) s.now }
{
    s.iter().fold(true, |all, b| all & in_class(c, *b))
}

// The place of the first byte that is not text, or the length. Blocks of sixteen bytes of text are passed over; the block that holds another
// byte is looked at once more, for its place.
pub fn text_end(s: &[u8]) -> usize
    ensures { FirstOf (in_class Class.NotText) s.now result }
{
    let (blocks, rest) = s.as_chunks::<16>();
    for (i, block) in blocks.iter().enumerate() {
        if !all_in(block, Class::Text) {
            if let Some(k) = block.iter().position(|b| !is_text(*b)) {
                return 16 * i + k;
            }
        }
    }
    s.len() - rest.len() + first_among(rest, Class::NotText)
}

// The place of the first byte that is x, or the length, where it is likely to be far: blocks of sixteen other bytes are passed over.
pub fn first_far(s: &[u8], x: u8) -> usize
    ensures { FirstOf (in_class (Class.Is x)) s.now result }
{
    let (blocks, _) = s.as_chunks::<16>();
    let at = 16
        * blocks
            .iter()
            .position(|block| !all_in(block, Class::Not(x)))
            .unwrap_or(blocks.len());
    at + first_is(&s[at..], x)
}

// The place of the first byte of the class, or the length.
pub fn first_in(s: &[u8], c: Class) -> usize
    ensures { FirstOf (in_class c) s.now result }
{
    match c {
        Class::Is(x) => first_is(s, x),
        _ => first_among(s, c),
    }
}

// The first place from `from` on that holds a byte of the class, or the length; `from` itself where it is past the end.
pub fn first_from(s: &[u8], from: usize, c: Class) -> usize
    ensures { FirstFrom (in_class c) s.now from result }
{
    if s.len() < from {
        return from;
    }
    from + first_in(&s[from..], c)
}

// Whether the case of ASCII letters tells two texts apart.
#[derive(Clone, Copy, PartialEq, Eq, Debug)]
pub enum Case {
    Counts,
    Ignored,
}

// A letter in its other case, and any other byte itself.
fn other_case(b: u8) -> u8
    ensures { result ≡ other_case b }
{
    if b.is_ascii_uppercase() {
        return b + 32;
    }
    if b.is_ascii_lowercase() {
        return b - 32;
    }
    b
}

// Of two bytes whose case is ignored, the first is compared in both its cases: where it is known, so are both.
fn is_pair_alike(case: Case, x: u8, y: u8) -> bool
    ensures { result ≡ eqb (seen case x) (seen case y) }
{
    match case {
        Case::Counts => x == y,
        Case::Ignored => (x == y) | (other_case(x) == y),
    }
}

// Whether two texts are the same bytes, or the same but for the case of letters. There is no early way out, so that many bytes can be compared at
// once.
pub fn are_alike(s: &[u8], t: &[u8], case: Case) -> bool
    ensures { result ≡ are_alike case s.now t.now }
{
    if s.len() != t.len() {
        return false;
    }
    s.iter()
        .zip(t)
        .fold(true, |alike, (x, y)| alike & is_pair_alike(case, *x, *y))
}

// A part of a slice, from start up to, not including, end. A span and no slice is handed on, since where a text stands is promised, so that each
// function has one answer (promises/proofs/Unique): a slice could say that too, but only by its address (`ref_ptr`).
#[derive(Clone, Copy, PartialEq, Eq, Debug)]
pub struct Span {
    pub start: usize,
    pub end: usize,
}

// The text without the spaces at its end.
#[tactic(auto, using(crate::proofs::Trims::space_off, crate::proofs::Trims::none_off))]
fn trimmed_behind(s: &[u8]) -> &[u8]
    ensures { result.now ≡ trim_end s.now }
{
    let mut text = s;
    while let [front @ .., b' '] = text {
        text = front;
    }
    text
}

// Where the text stands without the spaces at its start and its end.
pub fn trimmed(s: &[u8]) -> Span
    ensures { Trimmed s.now result }
{
    let start = first_in(s, Class::Not(b' '));
    let text = trimmed_behind(&s[start..]);
    Span {
        start,
        end: start + text.len(),
    }
}
