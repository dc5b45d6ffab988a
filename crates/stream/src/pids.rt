// A stream's PIDs as they lie in its place: an ascending list at the front of an array, and zeros behind it.
ghost use Rattle.std.specs.Prelude.{◌≡◌, ◌≤◌, drop};
ghost use Rattle.scan.specs.Lists.{all};
ghost use Rattle.stream.specs.Values.{is_zero};
ghost use Rattle.stream.specs.Pids.{is_padded, added, removed, replaced, edited, choice_of, chosen};
ghost use Rattle.stream.specs.Arrays.{Chooses};

use crate::list::{ADD, PidList, REMOVE};
use crate::{Refusal, Stream};

// Whether all of some places are zeros. There is no early way out, so that many places can be looked at at once.
fn are_zeros(pids: &[u16]) -> bool
    ensures { result ≡ all is_zero pids.now }
{
    let mut zero = true;
    for p in pids {
        zero &= *p == 0;
    }
    zero
}

// Whether an array is all zeros from a place on. Most lists are short: behind the eighth place it is then known how many are looked at.
fn are_zero(pids: &[u16; 32], from: usize) -> bool
    requires { from ≤ 32 }
    ensures { result ≡ all is_zero (drop from pids.now) }
{
    if from <= 8 {
        are_zeros(&pids[from..8]) & are_zeros(&pids[8..])
    } else {
        are_zeros(&pids[from..])
    }
}

// Whether an array is `count` PIDs that ascend, and zeros after them. The last PID is the highest: it alone is held to 8191.
pub(crate) fn is_padded(pids: &[u16; 32], count: usize) -> bool
    ensures { result ≡ is_padded count 0 pids.now }
{
    if Stream::PIDS < count {
        return false;
    }
    let mut least = 0;
    for p in &pids[..count] {
        let p = u32::from(*p);
        if p < least {
            return false;
        }
        least = p + 1;
    }
    (least <= 8192) & are_zero(pids, count)
}

// A stream's PIDs while a query is merged: a list, and whether it is all of them instead. A stream that is not sound may have both, and keeps both.
#[derive(Debug, Drop)]
pub(crate) struct Picked {
    pub(crate) list: PidList,
    pub(crate) all: bool,
}

// The code of a list of PIDs that is given.
const LIST: u32 = 3;

// What pids makes of them, if they fit: all, none, or the PIDs of its text.
fn replace(code: u32, text: &[u8]) -> Result<Picked, Refusal>
    ensures { Chooses (replaced code text.now) result }
{
    let mut list = PidList::new();
    match code {
        1 => Ok(Picked { list, all: true }),
        2 => Ok(Picked { list, all: false }),
        _ => {
            list.obey_all::<ADD>(LIST, text)?;
            Ok(Picked { list, all: false })
        }
    }
}

// What delpids and then addpids make of them, if they fit.
fn edit(m: Stream, del: u32, delpids: &[u8], add: u32, addpids: &[u8]) -> Result<Picked, Refusal>
    ensures { Chooses (edited added add addpids.now (edited removed del delpids.now (choice_of m))) result }
{
    let mut list = PidList::first_of(m.pids, usize::from(m.count));
    if m.all != 0 {
        return Ok(Picked { list, all: true });
    }
    list.obey_all::<REMOVE>(del, delpids)?;
    list.obey_all::<ADD>(add, addpids)?;
    Ok(Picked { list, all: false })
}

// What a query makes of a stream's PIDs, if they fit.
pub(crate) fn choose(
    m: Stream,
    codes: [u32; 13],
    pids: &[u8],
    delpids: &[u8],
    addpids: &[u8],
) -> Result<Picked, Refusal>
    ensures { Chooses (chosen m codes pids.now delpids.now addpids.now) result }
{
    if codes[10] == 0 {
        edit(m, codes[12], delpids, codes[11], addpids)
    } else {
        replace(codes[10], pids)
    }
}
