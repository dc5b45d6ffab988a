// What a request comes to once it was read: steps 11 to 18, and the change; where one of them refuses, that is the last time of the session that
// is named, which comes here set. Nothing here changes a table: what is needed of it is looked up before, and a turn says what is to change.
#![tactic(auto)]

mod opening;

ghost use Rattle.std.specs.Prelude.{◌≡◌};
ghost use Rattle.serving.specs.Serving.{refusal_case, is_unreached, seat_after};
ghost use Rattle.serving.specs.Turns.{reason_of, about_of, named_seat, at_port, playing, denied_as, joined_by, opened_by, retuned_by, set_up_by, turn_by};

use aim::Method;
pub use opening::{Client, Offer, Seat, offer_of};
use steps::{Case, Sight};
use stream::{Refusal, Stream};
use table::{SatBox, Session};

// What a request comes to, with each session as it then stands at its place.
#[derive(Clone, Copy, PartialEq, Eq, Debug)]
pub enum Turn {
    // It is refused; the session that it names, if any, is kept.
    Refused { case: Case, kept: Option<Seat> },
    // An OPTIONS keeps the session that it names, if any.
    Kept { seat: Option<Seat> },
    // A session is changed in its place, and its stream where it owns that.
    Changed { seat: Seat, stream: Option<Stream> },
    // A session opens on a new stream, which it owns.
    Opened { seat: Seat, stream: Stream },
    // A session joins a live stream.
    Joined { seat: Seat },
    // A session closes.
    Closed { seat: Seat },
}

impl Turn {
    // Why the request is refused, if it is.
    pub fn reason(&self) -> Option<Case>
        ensures { result ≡ reason_of self.now }
    {
        match *self {
            Turn::Refused { case, .. } => Some(case),
            _ => None,
        }
    }

    // The session that the answer is about.
    pub fn about(&self) -> Session
        ensures { result ≡ about_of self.now }
    {
        match *self {
            Turn::Refused { .. } | Turn::Kept { seat: None } => Session::NONE,
            Turn::Kept { seat: Some(seat) }
            | Turn::Changed { seat, .. }
            | Turn::Opened { seat, .. }
            | Turn::Joined { seat }
            | Turn::Closed { seat } => seat.session,
        }
    }
}

// The session that the request names, if any.
fn named(v: Sight) -> Option<Seat>
    ensures { result ≡ named_seat v }
{
    let seat = Seat {
        place: v.place,
        session: v.session,
    };
    (v.place < SatBox::SESSIONS).then_some(seat)
}

fn deny(v: Sight, case: Case) -> Turn
    ensures { result ≡ denied_as v case }
{
    Turn::Refused {
        case,
        kept: named(v),
    }
}

// The case of a query that is not merged.
fn refusal_case(refusal: Refusal) -> Case
    ensures { result ≡ refusal_case refusal }
{
    match refusal {
        Refusal::Combination => Case::Combination,
        Refusal::TooMany => Case::TooManyPids,
    }
}

// A SETUP for a new stream.
#[tactic(auto, unfolding(crate::specs::Turns::opened_by))]
fn open_stream(v: Sight, merged: Result<Stream, Refusal>, o: Offer) -> Turn
    ensures { result ≡ opened_by v merged o }
{
    match (merged, o.seat) {
        (Err(refusal), _) => deny(v, refusal_case(refusal)),
        (Ok(_), None) => deny(v, Case::Full),
        (Ok(stream), Some(seat)) => Turn::Opened { seat, stream },
    }
}

// A SETUP on a live stream.
#[tactic(auto, unfolding(crate::specs::Turns::joined_by))]
fn join(v: Sight, o: Offer) -> Turn
    ensures { result ≡ joined_by v o }
{
    let Some(seat) = o.seat else {
        return deny(v, Case::Full);
    };
    Turn::Joined { seat }
}

fn at_port(s: Session, port: u32) -> Session
    ensures { result ≡ at_port port s }
{
    Session { port, ..s }
}

fn play(s: Session) -> Session
    ensures { result ≡ playing s }
{
    Session { playing: 1, ..s }
}

// The session after a SETUP or a PLAY that names it.
fn after(v: Sight) -> Session
    ensures { result ≡ seat_after v }
{
    match v.method {
        Method::Setup => at_port(v.session, v.port),
        _ => play(v.session),
    }
}

// Whether the frontend held does not reach the src that is given.
fn is_unreached(v: Sight) -> bool
    ensures { result ≡ is_unreached v }
{
    v.src != 0 && !table::has_source(v.reach, v.src)
}

// A SETUP or a PLAY of an open session: its owner's query is merged into its stream.
#[tactic(auto, unfolding(crate::specs::Turns::retuned_by))]
fn retune(v: Sight, merged: Result<Stream, Refusal>) -> Turn
    ensures { result ≡ retuned_by v merged }
{
    let seat = Seat {
        place: v.place,
        session: after(v),
    };
    if !finding::owns(v.session, v.stream) {
        return Turn::Changed { seat, stream: None };
    }
    match merged {
        Ok(stream) => {
            if is_unreached(v) {
                return deny(v, Case::NotReached);
            }
            Turn::Changed {
                seat,
                stream: Some(stream),
            }
        }
        Err(refusal) => deny(v, refusal_case(refusal)),
    }
}

// A SETUP: in a session, for a new stream, or on a live one.
#[tactic(auto, unfolding(crate::specs::Turns::set_up_by))]
fn set_up(v: Sight, merged: Result<Stream, Refusal>, o: Offer) -> Turn
    ensures { result ≡ set_up_by v merged o }
{
    if v.place < SatBox::SESSIONS {
        return retune(v, merged);
    }
    if v.stream == 0 {
        return open_stream(v, merged, o);
    }
    join(v, o)
}

// What a request comes to: `merged` is the stream with its query, or why it is not merged; o what an opening would take; `case` which of
// steps 1 to 15 refuses, if one does.
#[tactic(auto, unfolding(crate::specs::Turns::turn_by))]
pub fn turn_of(v: Sight, merged: Result<Stream, Refusal>, o: Offer, case: Option<Case>) -> Turn
    ensures { result ≡ turn_by v merged o case }
{
    if let Some(case) = case {
        return deny(v, case);
    }
    match v.method {
        // Step 6 lets no other method through.
        Method::Options | Method::Other => Turn::Kept { seat: named(v) },
        Method::Setup => set_up(v, merged, o),
        Method::Play => retune(v, merged),
        Method::Teardown => Turn::Closed {
            seat: Seat {
                place: v.place,
                session: v.session,
            },
        },
    }
}
