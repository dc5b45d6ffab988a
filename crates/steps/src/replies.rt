// What a request is answered with: by the case, and on 200 by the method and the session.
ghost use Rattle.std.specs.Prelude.{◌≡◌, cond};
ghost use Rattle.scan.specs.Found.{nowhere};
ghost use Rattle.steps.specs.Steps.{is_passed};
ghost use Rattle.steps.specs.Handed.{refused_kind, granted_kind, kind_of, reply_to, refused_reply};

use crate::{Case, cases};
use aim::Method;
use answer::{Answer, Kind};
use reader::{Asked, Refused};
use scan::Span;
use table::Session;

// What a request carries that is refused.
fn refused_kind(case: Case) -> Kind
    ensures { result ≡ refused_kind case }
{
    match case.step() {
        5 => Kind::Unsupported,
        6 => Kind::Public,
        10 => Kind::Allow,
        _ => Kind::Bare,
    }
}

fn granted_kind(method: Method) -> Kind
    ensures { result ≡ granted_kind method }
{
    match method {
        Method::Options => Kind::Options,
        Method::Setup => Kind::Setup,
        Method::Play => Kind::Play,
        Method::Teardown => Kind::Teardown,
        Method::Other => Kind::Bare,
    }
}

fn kind_of(case: Option<Case>, method: Method) -> Kind
    ensures { result ≡ kind_of case method }
{
    match case {
        None => granted_kind(method),
        Some(case) => refused_kind(case),
    }
}

// The place of the host, which an answer repeats on 200.
fn word_of(case: Option<Case>, host: Span) -> Span
    ensures { result ≡ cond (is_passed case) host nowhere }
{
    let nowhere = Span { start: 0, end: 0 };
    if case.is_none() { host } else { nowhere }
}

// The answer to a request that steps 1 to 10 let through, by the case that refuses it, if one does, with the session that it is about.
#[tactic(auto, unfolding(crate::specs::Handed::reply_to))]
pub fn answer_to(case: Option<Case>, r: &Asked, s: Session) -> Answer
    ensures { result ≡ reply_to case r.now s }
{
    Answer {
        kind: kind_of(case, r.method),
        status: cases::status_of(case) as u32,
        cseq: r.cseq,
        session: s.number,
        stream: s.stream as u32,
        address: s.address,
        port: s.port,
        text: word_of(case, r.host),
    }
}

// The answer to a request that one of them refuses: it repeats a Require value, where that is why.
#[tactic(auto, unfolding(crate::specs::Handed::refused_reply))]
pub fn answer_to_refused(refused: &Refused) -> Answer
    ensures { result ≡ refused_reply refused.now }
{
    let nowhere = Span { start: 0, end: 0 };
    let case = Case::Reading(refused.refusal);
    Answer {
        kind: refused_kind(case),
        status: cases::status_of(Some(case)) as u32,
        cseq: refused.cseq.unwrap_or(nowhere),
        session: 0,
        stream: 0,
        address: 0,
        port: 0,
        text: refused.require.unwrap_or(nowhere),
    }
}
