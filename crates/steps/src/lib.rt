// Document 01's steps 11 to 15, and what a request is answered with. Of the request and the table they look at a few numbers only, which are
// gathered once (`Sight`); nothing here changes a table.
#![tactic(auto)]

mod cases;
mod replies;
mod tests;

ghost use Rattle.std.specs.Prelude.{◌≡◌};
ghost use Rattle.table.specs.Table.{unless};
ghost use Rattle.steps.specs.Handed.{asked_by, sighted};
ghost use Rattle.steps.specs.Sights.{is_absent, session_number};
ghost use Rattle.steps.specs.Steps.{table_case};

use aim::Method;
pub use cases::Case;
use reader::Asked;
pub use replies::{answer_to, answer_to_refused};
use table::Session;

// What steps 11 to 15, and 17 for a src, look at: of the request its method, whether it sends a Session header, the stream that it names, the
// fe and the src that it gives, whether it has a query, and its port, each 0 where there is none; of the table the place of the open session
// that it names, 32 where it names none, that session, the frontend that the stream holds, 0 where it is not live, and the sources that this
// frontend reaches.
#[derive(Clone, Copy)]
pub struct Sight {
    pub method: Method,
    pub absent: bool,
    pub stream: u32,
    pub fe: u32,
    pub src: u32,
    pub query: bool,
    pub port: u32,
    pub place: usize,
    pub session: Session,
    pub frontend: u8,
    pub reach: u8,
}

fn is_absent(sent: reader::Session) -> bool
    ensures { result ≡ is_absent sent }
{
    matches!(sent, reader::Session::Absent)
}

// The number that a Session header names, if any; no open session has 0.
pub fn number_of(sent: reader::Session) -> Option<u32>
    ensures { result ≡ unless 0 (session_number sent) }
{
    match sent {
        reader::Session::Absent | reader::Session::Malformed | reader::Session::Named(0) => None,
        reader::Session::Named(n) => Some(n),
    }
}

// Gathers what the steps look at: of the table the place of the session that is named, that session, and the frontend of the stream with
// what it reaches.
pub fn sight_of(r: &Asked, place: usize, session: Session, frontend: u8, reach: u8) -> Sight
    ensures { result ≡ sighted (asked_by r.now) place session frontend reach }
{
    Sight {
        method: r.method,
        absent: is_absent(r.session),
        stream: r.stream.unwrap_or(0),
        fe: r.codes[1],
        src: r.codes[0],
        query: r.query.is_some(),
        port: r.transport.unwrap_or(0),
        place,
        session,
        frontend,
        reach,
    }
}

// The first of steps 11 to 15 that refuses, if one does.
pub fn case_of(v: Sight) -> Option<Case>
    ensures { result ≡ table_case v }
{
    if tests::lacks_session(v) {
        return Some(Case::NoSession);
    }
    if tests::is_dead(v) {
        return Some(Case::NotLive);
    }
    if tests::is_out_of_state(v) {
        return Some(Case::State);
    }
    if tests::is_anothers(v) {
        return Some(Case::NotOwner);
    }
    if tests::lacks_port(v) {
        return Some(Case::Transport);
    }
    None
}
