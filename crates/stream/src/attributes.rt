// A stream's values: which are in range, which go together, and what a query's values replace.
ghost use Rattle.std.specs.Prelude.{◌≡◌};
ghost use Rattle.stream.specs.Values.{are_in_range, go_together, given, merged, are_complete};
ghost use Rattle.stream.specs.Arrays.{is_in_range};

use crate::Values;

// Whether an attribute, by its place in document 01's table, may have this code in a stream: a match, which is the form that document 01 names for
// value ranges.
fn is_in_range(attribute: usize, code: u32) -> bool
    ensures { result ≡ is_in_range attribute code }
{
    match attribute {
        0 => (1 <= code) & (code <= 4),
        2 => (code == 0) | ((1070000 <= code) & (code <= 1275000)),
        3 => code <= 4,
        4 => code <= 2,
        5 => code <= 2,
        6 => code <= 2,
        7 => code <= 3,
        8 => (code == 0) | ((1000 <= code) & (code <= 45000)),
        9 => code <= 9,
        _ => false,
    }
}

// Whether every value is one that its attribute may have in a stream.
pub(crate) fn are_in_range(v: Values) -> bool
    ensures { result ≡ are_in_range v }
{
    is_in_range(0, v.src)
        & is_in_range(2, v.freq)
        & is_in_range(3, v.pol)
        & is_in_range(4, v.msys)
        & is_in_range(5, v.mtype)
        & is_in_range(6, v.plts)
        & is_in_range(7, v.ro)
        & is_in_range(8, v.sr)
        & is_in_range(9, v.fec)
}

// Document 01's combination rule.
pub(crate) fn go_together(v: Values) -> bool
    ensures { result ≡ go_together v }
{
    !(v.msys == 1) | (!(v.mtype == 2) & !(v.plts == 1) & (v.ro <= 1) & (v.fec <= 5))
}

// Whether a tuner can be set: freq, pol, msys, sr and fec are all there.
pub fn are_complete(v: Values) -> bool
    ensures { result ≡ are_complete v }
{
    !(v.freq == 0) & !(v.pol == 0) & !(v.msys == 0) & !(v.sr == 0) & !(v.fec == 0)
}

// A value after a query that gives a code for it, or 0 where it gives none.
fn given(code: u32, old: u32) -> u32
    ensures { result ≡ given code old }
{
    if code == 0 { old } else { code }
}

// The values after a query's, whose codes stand by the attribute's place in document 01's table.
pub(crate) fn merged(v: Values, codes: [u32; 13]) -> Values
    ensures { result ≡ merged v codes }
{
    Values {
        src: given(codes[0], v.src),
        freq: given(codes[2], v.freq),
        pol: given(codes[3], v.pol),
        msys: given(codes[4], v.msys),
        mtype: given(codes[5], v.mtype),
        plts: given(codes[6], v.plts),
        ro: given(codes[7], v.ro),
        sr: given(codes[8], v.sr),
        fec: given(codes[9], v.fec),
    }
}
