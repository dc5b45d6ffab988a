// Whether a table is well formed: the rules of document 01 in one walk over the streams and one over the sessions, each handed the array that
// it walks over. A leaf looks at one place, or at numbers. The walk over the sessions keeps the oldest last time beside, so that a sweep need
// not look for sessions that have expired.
#![tactic(auto)]

ghost use Rattle.std.specs.Prelude.{◌≡◌, true, false, not, cond, ◌&&◌, ◌||◌, List, ◌∷◌, map, ℕ, ◌+◌, ◌*◌, ◌%◌, ◌≤◌, ◌<◌, eqb, leb, length, get_or, take, drop, replicate, is_some};
ghost use Rattle.scan.specs.Lists.{is_between, all};
ghost use Rattle.stream.specs.Values.{is_zero};
ghost use Rattle.stream.specs.Streams.{is_sound};
ghost use Rattle.stream.specs.declared.Stream.{Stream};
ghost use Rattle.table.specs.Table.{count, are_distinct, is_among, is_free, is_open, owns};
ghost use Rattle.table.specs.Reach.{has_source, set_of};
ghost use Rattle.table.specs.Formed.{is_placed, are_owned, is_seated, is_blank};
ghost use Rattle.table.specs.declared.Session.{Session};
ghost use Rattle.formed.specs.Standings.{is_vacant, oldest, standing_of};

use stream::Stream;
use table::{SatBox, Session, Settings};

// No last time is later: the oldest where no session is open.
const LATEST: u32 = 4294967295;

// Whether an open session's values are in range and its last time is not past the clock.
fn is_seated(s: Session, clock: u32) -> bool
    ensures { result ≡ is_seated clock s }
{
    ((1024 <= s.port) & (s.port <= 65534))
        & (s.port % 2 == 0)
        & (s.owner <= 1)
        & (s.playing <= 1)
        & (s.last <= clock)
}

// Whether the journal holds whole records and has room for the closing of each open session.
fn is_fitting(held: u32, size: u32, opens: usize) -> bool
    requires { opens ≤ 32 }
    ensures { result ≡ (eqb (held % 16) 0 && leb (held + 16 * opens) size) }
{
    let closings = u64::from(SatBox::RECORD) * opens as u64;
    (held % SatBox::RECORD == 0) & (u64::from(held) + closings <= u64::from(size))
}

// A place's bytes as one number.
fn bytes_of(s: Session) -> u32
    ensures { result ≡ s.stream + s.owner * 256 + s.playing * 65536 }
{
    u32::from(s.stream) + u32::from(s.owner) * 256 + u32::from(s.playing) * 65536
}

// Whether nobody is at a place, and all of it is 0. It has no way out inside and takes the bytes as one number, so that many places are looked at at
// once (compared with one where nobody is, each field is looked at by itself: some 100 instructions more for eight places).
fn is_vacant(s: Session) -> bool
    ensures { result ≡ is_vacant s }
{
    (s.number == 0) & (s.address == 0) & (s.last == 0) & (s.port == 0) & (bytes_of(s) == 0)
}

// Whether a number is among the first of some that have zeros behind them. Most tables have at most eight sessions.
fn is_taken(numbers: &[u32; 32], opens: usize, n: u32) -> bool
    requires { (eqb n 0 ≡ false) × (opens ≤ 32) × (all is_zero (drop opens numbers.now) ≡ true) }
    ensures { result ≡ is_among n (take opens numbers.now) }
{
    let first = table::is_among(&numbers[0..8], n);
    if opens <= 8 {
        return first;
    }
    first | table::is_among(&numbers[8..32], n)
}

// Whether an open session may stand behind those before it: it is seated, on a live stream, and none of them has its number.
fn is_admitted(s: Session, clock: u32, feeds: &[u32; 9], numbers: &[u32; 32], opens: usize) -> bool
    requires { (eqb s.number 0 ≡ false) × (opens ≤ 32) × (all is_zero (drop opens numbers.now) ≡ true) }
    ensures { result ≡ (is_seated clock s && (not (is_zero (get_or feeds.now s.stream 0)) && not (is_among s.number (take opens numbers.now)))) }
{
    let id = s.stream as usize;
    if SatBox::STREAMS < id {
        return false;
    }
    if !is_seated(s, clock) {
        return false;
    }
    (feeds[id] != 0) & !is_taken(numbers, opens, s.number)
}

// Whether each live stream has one owner. The frontend of each stream, and how many own it, stand at its ID.
fn are_owned(feeds: &[u32; 9], owners: &[u32; 9]) -> bool
    ensures { (l : List Session) (ms : List Stream) → feeds.now ≡ 0 ∷ map (λ m. m.frontend) ms
        → ((id : ℕ) → id < 9 → get_or owners.now id 0 ≡ count (owns id) l) → result ≡ are_owned l 1 ms }
{
    let mut owned = true;
    for id in 0..9 {
        owned = owned & ((feeds[id] == 0) | (owners[id] == 1));
    }
    owned
}

// Whether a live stream is sound, and its frontend reaches its src.
fn is_placed(m: Stream, settings: Settings) -> bool
    ensures { result ≡ (is_sound settings.frontends m && has_source (set_of settings m.frontend) m.values.src) }
{
    if !stream::is_sound(m, settings.frontends) {
        return false;
    }
    let v = m.values;
    table::has_source(table::set_of(settings, u32::from(m.frontend)), v.src)
}

// Whether the streams are sound, each on a frontend that reaches its src; their frontends are put at their IDs.
fn are_sound(streams: &[Stream; 8], settings: Settings, feeds: &mut [u32; 9]) -> bool
    requires { feeds.old ≡ replicate 9 0 }
    ensures { (result ≡ all (is_placed settings) streams.now) × (result ≡ true → feeds.new ≡ 0 ∷ map (λ m. m.frontend) streams.now) }
{
    for (k, m) in streams.iter().enumerate() {
        let feed = m.frontend;
        feeds[k + 1] = u32::from(feed);
        if feed == 0 {
            if !stream::is_unused(*m) {
                return false;
            }
        } else if !is_placed(*m, settings) {
            return false;
        }
    }
    true
}

// Whether nobody is at some places.
fn are_vacant(sessions: &[Session]) -> bool
    ensures { result ≡ all is_vacant sessions.now }
{
    let mut vacant = true;
    for s in sessions {
        vacant &= is_vacant(*s);
    }
    vacant
}

// How many places are looked at: nobody is behind them. The last ones are passed over eight at a time as long as nobody is there (one by one, by
// `rposition`, takes 481 instructions more where nobody is).
fn end_of(sessions: &[Session; 32]) -> usize
    ensures { (result ≤ 32) × (all is_vacant (drop result sessions.now) ≡ true) }
{
    let mut end = SatBox::SESSIONS;
    for eight in sessions.rchunks_exact(8) {
        if !are_vacant(eight) {
            break;
        }
        end -= 8;
    }
    end
}

// Looks at the sessions, with the streams' frontends at their IDs, and puts how many own each stream at its ID. Of the open sessions so far it keeps
// their numbers, how many they are, and the oldest last time.
fn seats_of(
    sessions: &[Session; 32],
    clock: u32,
    held: u32,
    size: u32,
    feeds: &[u32; 9],
    owners: &mut [u32; 9],
) -> Option<u32>
    requires { owners.old ≡ replicate 9 0 }
    ensures { (result ≡ cond (are_distinct (map (λ s. s.number) sessions.now)
        && (all (λ s. is_free s || not (is_zero (get_or feeds.now s.stream 0))) sessions.now
        && (all (λ s. cond (is_free s) (is_blank s) (is_seated clock s)) sessions.now
        && (eqb (held % 16) 0 && leb (held + 16 * count is_open sessions.now) size)))) (Some (oldest sessions.now)) None)
        × (is_some result ≡ true → (id : ℕ) → id < 9 → get_or owners.new id 0 ≡ count (owns id) sessions.now) }
{
    let mut numbers = [0u32; 32];
    let mut opens = 0;
    let mut oldest = LATEST;
    for s in &sessions[..end_of(sessions)] {
        if s.number == 0 {
            if *s != Session::NONE {
                return None;
            }
            continue;
        }
        if !is_admitted(*s, clock, feeds, &numbers, opens) {
            return None;
        }
        numbers[opens] = s.number;
        owners[s.stream as usize] += u32::from(s.owner);
        opens += 1;
        oldest = oldest.min(s.last);
    }
    if !is_fitting(held, size, opens) {
        return None;
    }
    Some(oldest)
}

// Looks at a whole table: the oldest last time of its open sessions, or none where no box could stand so. No stream has the ID 0.
pub fn standing_of(t: &SatBox) -> Option<u32>
    ensures { result ≡ standing_of t.now }
{
    if !table::are_settings(t.settings) {
        return None;
    }
    let mut feeds = [0u32; 9];
    if !are_sound(&t.streams, t.settings, &mut feeds) {
        return None;
    }
    let mut owners = [0u32; 9];
    let oldest = seats_of(
        &t.sessions,
        t.clock,
        t.held,
        t.settings.size,
        &feeds,
        &mut owners,
    )?;
    if table::are_distinct(&feeds) & are_owned(&feeds, &owners) {
        return Some(oldest);
    }
    None
}
