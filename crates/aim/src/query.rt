// A URI's query: its form, its attributes' codes, and where their texts stand. Each byte is looked at twice, for `&` and for `=`; a
// name's bytes once more for each attribute as long, and a value's as `tuning` says.
ghost use Rattle.std.specs.Prelude.{◌≡◌, false, MatchOption};
ghost use Rattle.aim.specs.Found.{PartIs, is_query, QueryIs};

use scan::{Class, Span};

// One `name=value`: its attribute, and where its value starts.
#[derive(Clone, Copy, PartialEq, Eq, Debug)]
pub struct Part {
    pub attribute: usize,
    pub value: usize,
}

// A query: each attribute's code, 0 where it is not given, its text's place, and whether the values are in the table.
#[derive(Clone, Copy, PartialEq, Eq, Debug)]
pub struct Query {
    pub codes: [u32; 13],
    pub spans: [Span; 13],
    pub within: bool,
}

// Reads one part of a query.
fn part_in(p: &[u8]) -> Option<Part>
    ensures { PartIs p.now result }
{
    let equals = scan::first_in(p, Class::Is(b'='));
    let value = equals + 1;
    if p.len() <= value {
        return None;
    }
    let attribute = tuning::attribute_of(&p[0..equals])?;
    Some(Part { attribute, value })
}

// Reads a query that has its form, on a box with so many frontends.
pub(crate) fn read_query(q: &[u8], frontends: u8) -> Option<Query>
    ensures { MatchOption result (is_query q.now ≡ false) (QueryIs frontends q.now) }
{
    let mut codes = [0u32; 13];
    let mut spans = [Span { start: 0, end: 0 }; 13];
    let mut within = true;
    // The pieces by `first_from`, which looks at eight bytes in a row: `split` takes three instructions more for each byte of a long one.
    let mut p = 0;
    while p <= q.len() {
        let e = scan::first_from(q, p, Class::Is(b'&'));
        let part = part_in(&q[p..e])?;
        let a = part.attribute;
        if spans[a].end != 0 {
            return None;
        }
        let value = p + part.value;
        let read = tuning::value_of(frontends, a, &q[value..e]);
        codes[a] = read.unwrap_or(0);
        spans[a] = Span {
            start: value,
            end: e,
        };
        within = within & read.is_some();
        p = e + 1;
    }
    Some(Query {
        codes,
        spans,
        within,
    })
}
