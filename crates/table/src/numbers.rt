// Numbers in a row, and what is looked up among them.
ghost use Rattle.std.specs.Prelude.{◌≡◌};
ghost use Rattle.table.specs.Table.{is_among, are_distinct};

// Whether a number is one of some. All are looked at, so that the compiler may compare many at once.
pub fn is_among(ns: &[u32], n: u32) -> bool
    ensures { result ≡ is_among n ns.now }
{
    let mut found = false;
    for m in ns {
        found |= *m == n;
    }
    found
}

// Whether no number but 0 stands there twice.
pub fn are_distinct(ns: &[u32]) -> bool
    ensures { result ≡ are_distinct ns.now }
{
    for (i, n) in ns.iter().enumerate() {
        if *n != 0 && is_among(&ns[i + 1..], *n) {
            return false;
        }
    }
    true
}
