// Why a request is refused, in document 01's order: each case with its step and its status.
#![tactic(auto)]

ghost use Rattle.std.specs.Prelude.{◌≡◌};
ghost use Rattle.refusals.specs.Refusals.{reading_rule};

#[derive(Clone, Copy, PartialEq, Eq, Debug)]
pub enum Refusal {
    Layout,
    CSeq,
    RequestLine,
    HeaderTwice,
    Version,
    Require,
    Method,
    UriLong,
    UriForm,
    // A query with OPTIONS or TEARDOWN.
    QueryUntaken,
    QueryForm,
    // pids beside addpids or delpids.
    PidsClash,
    // addpids or delpids in a URI without stream.
    PidsUnstreamed,
    // A value outside the table.
    Value,
    NoStream,
}

// Document 01's step, and the status that answers it.
fn rule(refusal: Refusal) -> (u8, u16)
    ensures { result ≡ reading_rule refusal }
{
    match refusal {
        Refusal::Layout => (1, 400),
        Refusal::CSeq => (2, 400),
        Refusal::RequestLine => (3, 400),
        Refusal::HeaderTwice => (3, 400),
        Refusal::Version => (4, 505),
        Refusal::Require => (5, 551),
        Refusal::Method => (6, 501),
        Refusal::UriLong => (7, 414),
        Refusal::UriForm => (7, 400),
        Refusal::QueryUntaken => (8, 400),
        Refusal::QueryForm => (8, 400),
        Refusal::PidsClash => (8, 400),
        Refusal::PidsUnstreamed => (8, 400),
        Refusal::Value => (9, 403),
        Refusal::NoStream => (10, 405),
    }
}

// Document 01's step.
pub fn step(refusal: Refusal) -> u8
    ensures { result ≡ (reading_rule refusal).0 }
{
    rule(refusal).0
}

// The status that answers it.
pub fn status(refusal: Refusal) -> u16
    ensures { result ≡ (reading_rule refusal).1 }
{
    rule(refusal).1
}
