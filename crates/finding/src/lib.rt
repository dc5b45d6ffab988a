// What is free among the places, the stream IDs, the frontends and the session numbers of a table.
#![tactic(auto)]

ghost use Rattle.std.specs.Prelude.{◌≡◌, ℕ, ◌<◌, ◌≤◌, ◌∷◌, length, if◌then◌else◌, slice_index, IfSome};
ghost use Rattle.scan.specs.Lists.{first};
ghost use Rattle.stream.specs.declared.Stream.{Stream};
ghost use Rattle.table.specs.Reach.{set_of};
ghost use Rattle.table.specs.Table.{unless, count, has_number, is_dead, is_open, owns};
ghost use Rattle.finding.specs.Finding.{lowest_place, lowest_id, is_held, choice, drawn};

use stream::Stream;
use table::{SatBox, Session, Settings};

// The place of the session that has the number, below 32.
pub fn place_of(sessions: &[Session; 32], n: u32) -> Option<usize>
    ensures first { result ≡ unless 32 (first (has_number n) sessions.now) }
    ensures within { IfSome result (λ place. place < 32) }
{
    sessions.iter().position(|s| s.number == n)
}

// The lowest free place, below 32. (`sized`: of an array behind a reference a caller knows the length only where it reads it.)
pub fn lowest_place(sessions: &[Session; 32]) -> Option<usize>
    ensures first { result ≡ unless 32 (lowest_place sessions.now) }
    ensures sized { length sessions.now ≡ 32 }
{
    sessions.iter().position(|s| s.number == 0)
}

// The place of the first stream that is not live, below 8.
fn first_dead(streams: &[Stream; 8]) -> Option<usize>
    ensures first { result ≡ unless 8 (first is_dead streams.now) }
    ensures within { IfSome result (λ place. place < 8) }
{
    streams.iter().position(|m| m.frontend == 0)
}

// The lowest free stream ID, 1 to 8.
pub fn lowest_id(streams: &[Stream; 8]) -> Option<u8>
    ensures { result ≡ unless 9 (lowest_id streams.now) }
{
    let place = first_dead(streams)?;
    Some(place as u8 + 1)
}

// Whether an open session owns the stream of an ID.
pub fn owns(s: Session, id: u32) -> bool
    ensures { result ≡ owns id s }
{
    s.number != 0 && u32::from(s.stream) == id && s.owner != 0
}

// Whether a stream holds the frontend.
pub fn is_held(streams: &[Stream; 8], f: u32) -> bool
    ensures { result ≡ is_held f streams.now }
{
    streams.iter().any(|m| u32::from(m.frontend) == f)
}

// The set of each frontend by its place, empty where a stream holds the frontend.
fn free_sets(streams: &[Stream; 8], settings: Settings) -> [u8; 8]
    ensures { (f : ℕ) → slice_index (0 ∷ result) f ≡ (if is_held f streams.now then 0 else set_of settings f) }
{
    let mut sets = settings.reach;
    for m in streams {
        let f = m.frontend as usize;
        if (1..=SatBox::STREAMS).contains(&f) {
            sets[f - 1] = 0;
        }
    }
    sets
}

// Of the free frontends that reach a source, the one that reaches the fewest, of these the lowest.
pub fn choice(t: &SatBox, source: u32) -> Option<u8>
    ensures { result ≡ unless 0 (choice t.now source) }
{
    let sets = free_sets(&t.streams, t.settings);
    let last = t.settings.frontends;
    let mut best = None;
    let mut least = 0;
    for f in (1..=8).rev() {
        let set = sets[f as usize - 1];
        let size = table::size_of(set);
        if ((u16::from(f) <= last) & table::has_source(set, source))
            & (best.is_none() | (size <= least))
        {
            best = Some(f);
            least = size;
        }
    }
    best
}

// The first number, counting up from the draw, that is not 0 and that no session has; after 4294967295 comes 0.
pub fn draw(sessions: &[Session; 32], draw: u32) -> u32
    ensures { result ≡ drawn sessions.now draw }
{
    let mut n = draw;
    'draw: loop {
        if n != 0 {
            for i in 0..=SatBox::SESSIONS {
                if i == SatBox::SESSIONS {
                    break 'draw n;
                }
                if sessions[i].number == n {
                    break;
                }
            }
        }
        n = std::num::wrapping_add_u32(n, 1);
    }
}

// How many sessions are open.
pub fn count_open(sessions: &[Session; 32]) -> u32
    ensures { (result ≡ count is_open sessions.now) × (result ≤ 32) }
{
    // A `for`: `filter` and `count` took 134 to 294 instructions more.
    let mut n = 0;
    for s in sessions {
        if s.number != 0 {
            n += 1;
        }
    }
    n
}
