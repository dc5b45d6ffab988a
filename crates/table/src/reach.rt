// Order 1 of document 02: the set of sources that each frontend reaches, four bits of which the lowest is source 1.
ghost use Rattle.std.specs.Prelude.{◌≡◌};
ghost use Rattle.table.specs.Reach.{has_source, size_of, set_of, are_sets, up_to};

use crate::Settings;

// The set of all four sources.
const ALL: u8 = 15;

// Whether a source is in a set.
pub fn has_source(set: u8, source: u32) -> bool
    ensures { result ≡ has_source set source }
{
    (1..=4).contains(&source) && (u32::from(set) >> (source - 1)) % 2 == 1
}

// How many sources are in a set.
pub fn size_of(set: u8) -> u8
    ensures { result ≡ size_of set }
{
    set % 2 + set / 2 % 2 + set / 4 % 2 + set / 8 % 2
}

// The set that a frontend reaches; none where there is no such frontend.
pub fn set_of(settings: Settings, frontend: u32) -> u8
    ensures { result ≡ set_of settings frontend }
{
    match frontend {
        1..=8 => settings.reach[frontend as usize - 1],
        _ => 0,
    }
}

// Whether the first sets, of the frontends, have sources and none beyond the fourth, and the others are empty. There is no way out inside, so that
// all eight are looked at at once.
pub(crate) fn are_sets(reach: &[u8], frontends: usize) -> bool
    ensures { result ≡ are_sets frontends reach.now }
{
    let mut sound = true;
    for (i, set) in reach.iter().enumerate() {
        sound &= (*set <= ALL) & ((i < frontends) == (*set != 0));
    }
    sound
}

// Empties the sets that are no frontend's.
pub(crate) fn clear_from(reach: &mut [u8], frontends: usize)
    ensures { reach.new ≡ up_to frontends reach.old }
{
    let from = frontends.min(reach.len());
    reach[from..].fill(0);
}
