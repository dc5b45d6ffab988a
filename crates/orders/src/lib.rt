// What a frontend is to be set to: off, or the values and PIDs of the stream that holds it.
#![tactic(auto)]

ghost use Rattle.std.specs.Prelude.{◌≡◌, ◌<◌, cond, eqb, length, IfSome};
ghost use Rattle.scan.specs.Lists.{first, is_between};
ghost use Rattle.stream.specs.declared.Stream.{Stream};
ghost use Rattle.table.specs.Formed.{well_formed};
ghost use Rattle.table.specs.Table.{unless, any};
ghost use Rattle.table.specs.declared.Refusal.TheVariants.{Table, Frontend};
ghost use Rattle.orders.specs.Orders.{plays_as_owner, order_for, order_of};

use stream::Stream;
use table::{Refusal, SatBox, Session};

// The place of the stream that holds a frontend, below 8. (`sized`: of an array behind a reference a caller knows the length only where it reads it,
// and where there is no such place `order_for` reads none. Without the clause its proof does not close.)
fn place_fed(streams: &[Stream; 8], n: u32) -> Option<usize>
    ensures first { result ≡ unless 8 (first (λ (m : Stream). eqb m.frontend n) streams.now) }
    ensures within { IfSome result (λ place. place < 8) }
    ensures sized { length streams.now ≡ 8 }
{
    streams.iter().position(|m| u32::from(m.frontend) == n)
}

fn plays_as_owner(s: Session, id: u8) -> bool
    ensures { result ≡ plays_as_owner id s }
{
    s.number != 0 && s.stream == id && s.owner != 0 && s.playing != 0
}

// Whether the owner of the stream of an ID plays.
fn is_played(sessions: &[Session; 32], id: u8) -> bool
    ensures { result ≡ any (plays_as_owner id) sessions.now }
{
    sessions.iter().any(|s| plays_as_owner(*s, id))
}

// The order for one of the box's frontends: its stream, where the values are all there and its owner plays.
fn order_for(t: &SatBox, n: u32) -> Option<Stream>
    ensures { result ≡ order_for t.now n }
{
    let place = place_fed(&t.streams, n)?;
    let m = t.streams[place];
    if !stream::are_complete(m.values) {
        return None;
    }
    let id = place as u8 + 1;
    if !is_played(&t.sessions, id) {
        return None;
    }
    Some(m)
}

fn is_frontend(n: u32, frontends: u16) -> bool
    ensures { result ≡ is_between 1 frontends n }
{
    (1..=u32::from(frontends)).contains(&n)
}

// Refusals 1 and 5 of document 01, tested in that order.
fn judged(t: &SatBox, n: u32) -> Result<(), Refusal>
    ensures { result ≡ cond (well_formed t.now) (cond (is_between 1 t.now.settings.frontends n) (Ok tt) (Err Frontend)) (Err Table) }
{
    if formed::standing_of(t).is_none() {
        return Err(Refusal::Table);
    }
    if !is_frontend(n, t.settings.frontends) {
        return Err(Refusal::Frontend);
    }
    Ok(())
}

// The order for a frontend, which count from 1: the stream that it is to be set to, or none where it is to be off.
pub fn frontend_order(t: &SatBox, n: u32) -> Result<Option<Stream>, Refusal>
    ensures { result ≡ order_of t.now n }
{
    judged(t, n)?;
    Ok(order_for(t, n))
}
