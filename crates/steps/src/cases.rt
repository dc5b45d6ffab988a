// Why a request is refused, over all of document 01's steps: each case with its step and its status.
ghost use Rattle.std.specs.Prelude.{◌≡◌};
ghost use Rattle.steps.specs.Steps.{rule_of, status_of};

use refusals::Refusal;

#[derive(Clone, Copy, PartialEq, Eq, Debug)]
pub enum Case {
    // What was read of the request refuses it: steps 1 to 10.
    Reading(Refusal),
    NoSession,
    NotLive,
    // Not valid in the state that the session is in.
    State,
    NotOwner,
    Transport,
    Combination,
    TooManyPids,
    // The frontend held does not reach the src.
    NotReached,
    // No place, no frontend or no room for an opening.
    Full,
}

impl Case {
    // Document 01's step, 1 to 18.
    pub fn step(self) -> u8
        ensures { result ≡ (rule_of self).0 }
    {
        match self {
            Case::Reading(refusal) => refusals::step(refusal),
            Case::NoSession => 11,
            Case::NotLive => 12,
            Case::State => 13,
            Case::NotOwner => 14,
            Case::Transport => 15,
            Case::Combination => 16,
            Case::TooManyPids => 17,
            Case::NotReached => 17,
            Case::Full => 18,
        }
    }

    // The status that answers it.
    pub fn status(self) -> u16
        ensures { result ≡ (rule_of self).1 }
    {
        match self {
            Case::Reading(refusal) => refusals::status(refusal),
            Case::NoSession => 454,
            Case::NotLive => 404,
            Case::State => 455,
            Case::NotOwner => 403,
            Case::Transport => 461,
            Case::Combination => 403,
            Case::TooManyPids => 503,
            Case::NotReached => 503,
            Case::Full => 503,
        }
    }
}

// The status that answers a request, 200 where nothing refuses it.
pub(crate) fn status_of(case: Option<Case>) -> u16
    ensures { result ≡ status_of case }
{
    match case {
        None => 200,
        Some(case) => case.status(),
    }
}
