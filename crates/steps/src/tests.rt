// The test of each of steps 11 to 15.
ghost use Rattle.std.specs.Prelude.{◌≡◌};
ghost use Rattle.steps.specs.Steps.{is_setup, needs_session, looks_up, is_elsewhere};
ghost use Rattle.steps.specs.Tests.{lacks_session, names_dead, is_out_of_state, is_anothers, lacks_port};

use crate::Sight;
use aim::Method;
use table::SatBox;

fn is_setup(method: Method) -> bool
    ensures { result ≡ is_setup method }
{
    matches!(method, Method::Setup)
}

fn needs_session(method: Method) -> bool
    ensures { result ≡ needs_session method }
{
    matches!(method, Method::Play | Method::Teardown)
}

fn looks_up(method: Method) -> bool
    ensures { result ≡ looks_up method }
{
    is_setup(method) || needs_session(method)
}

// Step 11.
pub(crate) fn lacks_session(v: Sight) -> bool
    ensures { result ≡ lacks_session v }
{
    v.place >= SatBox::SESSIONS && (!v.absent || needs_session(v.method))
}

// Step 12.
pub(crate) fn is_dead(v: Sight) -> bool
    ensures { result ≡ names_dead v }
{
    looks_up(v.method) && v.stream != 0 && v.frontend == 0
}

// Whether the stream or the fe is not the session's.
fn is_elsewhere(v: Sight) -> bool
    ensures { result ≡ is_elsewhere v }
{
    v.stream != v.session.stream as u32 || (v.fe != 0 && v.fe != v.frontend as u32)
}

// Step 13.
pub(crate) fn is_out_of_state(v: Sight) -> bool
    ensures { result ≡ is_out_of_state v }
{
    v.place < SatBox::SESSIONS
        && looks_up(v.method)
        && (is_elsewhere(v) || (is_setup(v.method) && (v.stream == 0 || v.session.playing != 0)))
}

// Step 14.
pub(crate) fn is_anothers(v: Sight) -> bool
    ensures { result ≡ is_anothers v }
{
    v.query && v.stream != 0 && !finding::owns(v.session, v.stream)
}

// Step 15.
pub(crate) fn lacks_port(v: Sight) -> bool
    ensures { result ≡ lacks_port v }
{
    is_setup(v.method) && v.port == 0
}
