// An ascending list of PIDs, and what pids, delpids and addpids make of it. A text is obeyed entry by entry, whatever its length: a byte of it is
// looked at once for the commas and once as a digit, and an entry costs one look at each lower PID of the list and, where it changes something,
// one move of each higher one.
ghost use Rattle.std.specs.Prelude.{◌≡◌, List, [], ◌∷◌, ◌++◌, ℕ, suc, ◌≤◌, ◌<◌, length, take, drop, OnErr};

use crate::{Refusal, Stream};
use digits::Zeros;
use scan::Class;
use std::marker::Model;
use std::mem;

// PIDs at the front of an array: the first `count`. What stands behind them is nobody's, so that no comparison is derived.
#[derive(Debug, Drop)]
pub(crate) struct PidList {
    pids: [u16; 32],
    count: usize,
}

impl Model for PidList {
    ghost Value = { List ℕ };

    ghost view = { λ l. take l.count l.pids };

    ghost invariant = { λ l. l.count ≤ 32 };
}

// What is done with each PID of a text.
pub(crate) const ADD: bool = true;

pub(crate) const REMOVE: bool = false;

impl PidList {
    ghost use Rattle.stream.specs.Arrays.{read_pid, edit_of, with_text, Placed, Fits, once, laid_out};

    // With no PID.
    pub(crate) fn new() -> PidList
        ensures { result ≡ [] }
    {
        PidList {
            pids: [0; 32],
            count: 0,
        }
    }

    // The first of an array, as many as it has at most.
    pub(crate) fn first_of(pids: [u16; 32], count: usize) -> PidList
        ensures { result ≡ take count pids }
    {
        PidList {
            pids,
            count: count.min(Stream::PIDS),
        }
    }

    pub(crate) fn len(&self) -> usize
        ensures { (result ≡ length self.now) × (result ≤ 32) }
    {
        self.count
    }

    // As it lies in a stream's place: zeros after it.
    pub(crate) fn laid_out(self) -> [u16; 32]
        ensures { result ≡ laid_out self }
    {
        let mut pids = self.pids;
        pids[self.count..].fill(0);
        pids
    }

    // Where a PID stands, or else before which place it belongs. It is looked for from the front on, which a list that does not ascend needs too.
    fn place_of(&self, p: u16) -> Result<usize, usize>
        ensures { Placed p self.now result }
    {
        let list = &self.pids[..self.count];
        match list.iter().position(|q| p <= *q) {
            Some(at) if list[at] == p => Ok(at),
            Some(at) => Err(at),
            None => Err(list.len()),
        }
    }

    // Puts a PID before a place, if there is room.
    fn insert(&mut self, at: usize, p: u16) -> Result<(), Refusal>
        requires { at ≤ length self.old }
        ensures fits { Fits (take at self.old ++ (p ∷ drop at self.old)) self.new result }
        ensures full { OnErr result (length self.old ≡ 32) }
    {
        if self.count == Stream::PIDS {
            return Err(Refusal::TooMany);
        }
        // (`copy_within` takes three instructions more for each PID that is moved)
        let mut carried = p;
        for i in at..self.count {
            carried = mem::replace(&mut self.pids[i], carried);
        }
        self.pids[self.count] = carried;
        self.count += 1;
        Ok(())
    }

    // Takes out the PID at a place.
    fn remove(&mut self, at: usize)
        requires { at < length self.old }
        ensures { self.new ≡ take at self.old ++ drop (suc at) self.old }
    {
        self.pids.copy_within(at + 1..self.count, at);
        self.count -= 1;
    }

    // Adds the PID that a text is, or removes it, if there is room.
    fn obey<const EDIT: bool>(&mut self, piece: &[u8]) -> Result<(), Refusal>
        ensures fits { Fits (once (edit_of EDIT) (read_pid piece.now) self.old) self.new result }
        ensures full { OnErr result (length self.old ≡ 32) }
    {
        let Some(p) = digits::number(piece, Zeros::Allowed, 5, 8191) else {
            return Ok(());
        };
        let pid = p as u16;
        match self.place_of(pid) {
            Err(at) if EDIT => self.insert(at, pid),
            Ok(at) if !EDIT => {
                self.remove(at);
                Ok(())
            }
            _ => Ok(()),
        }
    }

    // Adds or removes the PIDs of a text one after the other, where it is given, if they fit.
    pub(crate) fn obey_all<const EDIT: bool>(
        &mut self,
        code: u32,
        text: &[u8],
    ) -> Result<(), Refusal>
        ensures { Fits (with_text (edit_of EDIT) code text.now self.old) self.new result }
    {
        if code == 0 {
            return Ok(());
        }
        let mut p = 0;
        // (a `for` over `split` takes up to 13 instructions more for each PID, since it looks at one byte at a time)
        while p <= text.len() {
            let e = scan::first_from(text, p, Class::Is(b','));
            self.obey::<EDIT>(&text[p..e])?;
            p = e + 1;
        }
        Ok(())
    }
}
