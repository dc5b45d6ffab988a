// What the known headers say, each read off its place in the request.
ghost use Rattle.std.specs.Prelude.{◌≡◌};
ghost use Rattle.reader.specs.Fields.{port_from, ports_in, transport_of};
ghost use Rattle.reader.specs.Heads.{session_in, is_pair};

use digits::Zeros;
use scan::Class;

// The Session header: whether it was sent, and the number that it names.
#[derive(Clone, Copy, PartialEq, Eq, Debug)]
pub enum Session {
    Absent,
    Malformed,
    Named(u32),
}

// What a Session header's value says, up to its first semicolon.
pub(crate) fn session_in(value: &[u8]) -> Session
    ensures { result ≡ session_in value.now }
{
    let end = scan::first_in(value, Class::Is(b';'));
    match digits::hex_number(&value[0..end]) {
        Some(n) => Session::Named(n),
        None => Session::Malformed,
    }
}

fn is_pair(a: u32, b: u32) -> bool
    ensures { result ≡ is_pair a b }
{
    (a % 2 == 0) & (b as u64 == a as u64 + 1)
}

fn port_from(a: Option<u32>, b: Option<u32>) -> Option<u32>
    ensures { result ≡ port_from a b }
{
    let first = a?;
    let second = b?;
    is_pair(first, second).then_some(first)
}

// The ports `a-b`.
fn ports_in(ports: &[u8]) -> Option<u32>
    ensures { result ≡ ports_in ports.now }
{
    let dash = scan::first_in(ports, Class::Is(b'-'));
    if dash == ports.len() {
        return None;
    }
    let second = dash + 1;
    let a = digits::number(&ports[0..dash], Zeros::Refused, 5, 65534);
    let b = digits::number(&ports[second..], Zeros::Refused, 5, 65535);
    port_from(digits::at_least(1024, a), b)
}

// What a Transport header's value says: the first of the two ports, where it is of the one form allowed.
pub(crate) fn transport_in(value: &[u8]) -> Option<u32>
    ensures { result ≡ transport_of value.now }
{
    if !target::starts_with(b"RTP/AVP;unicast;client_port=", value) {
        return None;
    }
    ports_in(&value[28..])
}
