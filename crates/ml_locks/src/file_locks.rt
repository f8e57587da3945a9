//! The locks of one file.
ghost use Rattle.std.specs.Prelude.{◌≡◌, ◌↔◌, ◌==◌, ◌&&◌, ℕ, Bool, List, IsSome, IsTrue, None, Some, false};
ghost use Rattle.std.specs.Prelude.{◌<◌, ◌∷◌, ◌++◌, [], length, slice_index_or, true, if◌then◌else◌};
ghost use Rattle.std.specs.Prelude.{IfOk, OnErr, OnOk};
ghost use Rattle.std.specs.FinMap as map;
ghost use Rattle.std.specs.List.{list_any};
ghost use Rattle.std.specs.Option.{ForSome};
ghost use Rattle.ml_locks.specs.Changes.{stronger};
ghost use Rattle.ml_locks.specs.Modes.{held_in, same_bits};
ghost use Rattle.ml_locks.specs.Requests.{IsAnswered, IsFirst, IsLeast, excludes, is_in_way};
ghost use Rattle.ml_locks.specs.Requests.{prefixes_of};
ghost use Rattle.ml_locks.specs.inside.Stored.{holder_mode};
ghost use Rattle.ml_locks.specs.inside.Waiting.{IsGrantedIn, LeavesIn, is_first, stands_in_way};

use crate::OutOfMemory;
use crate::asked::Asked;
use crate::holders::Holders;
use crate::waiting::{excludes_other, older_of};
use ml_bits::Bits;
use ml_desk::{Death, Mode};
use std::alloc::Global;
use std::collections::BTreeMap;
use std::marker::Model;

/// Who holds the regions of one file, by their prefixes. Contracts see the mode of each prefix and
/// session.
#[derive(Drop)]
pub(crate) struct FileLocks {
    alloc: Global,
    units: BTreeMap<Bits, Holders>,
}

impl Model for FileLocks {
    ghost use Rattle.std.specs.BTreeMap.{IsOrdered};
    ghost use Rattle.std.specs.Coded.{coded_bool, coded_list, coded_ℕ, coded×};
    ghost use Rattle.std.specs.FinMap as map;
    ghost use Rattle.ml_bits.specs.BitList.{bits_cmp};
    ghost use Rattle.ml_desk.specs.contracts.mode.Mode as mode;
    ghost use Rattle.ml_locks.specs.Modes.{FileModes};

    ghost Value = { FileModes };

    ghost coded = { map.code (coded× (coded_list coded_bool) coded_ℕ) mode.the_row.coded };

    ghost use Rattle.ml_locks.specs.inside.Stored.{file_modes};

    ghost view = { λ file. file_modes file.units.entries };

    ghost invariant = { λ file. IsOrdered bits_cmp file.units };
}

impl FileLocks {
    /// A file that nobody holds any of. It takes no memory.
    pub(crate) fn new(alloc: Global) -> FileLocks
        ensures { result ≡ map.empty }
    {
        FileLocks {
            alloc,
            units: BTreeMap::new(alloc),
        }
    }

    /// The mode in which a session holds the region with this prefix, if it holds it. It takes no
    /// memory.
    pub(crate) fn mode_of(&self, session: u32, prefix: &Bits) -> Option<Mode>
        ensures value { result ≡ held_in self.now session prefix.now.bits }
        ensures alone { result ≡ Some Mode.X → (other : ℕ) →
            IsSome (held_in self.now other prefix.now.bits) → other ≡ session }
    {
        match self.units.get(prefix) {
            Some(holders) => holders.mode_of(session),
            None => None,
        }
    }

    /// Whether any session holds the region with this prefix. It takes no memory.
    pub(crate) fn is_held(&self, prefix: &Bits) -> bool
        ensures { IsTrue result ↔ (session : ℕ) ×
            IsSome (held_in self.now session prefix.now.bits) }
    {
        match self.units.get(prefix) {
            Some(holders) => holders.is_held(),
            None => false,
        }
    }
    /// Nobody holds the region with this prefix any more. It takes no memory.
    pub(crate) fn forget(&mut self, prefix: &Bits)
        ensures { (s : ℕ) (u : List Bool) → held_in self.new s u ≡
            (if same_bits u prefix.now.bits then None else held_in self.old s u) }
    {
        self.units.remove(prefix);
    }

    /// A session holds nothing any more. It takes no memory.
    pub(crate) fn release(&mut self, session: u32)
        ensures { (s : ℕ) (u : List Bool) → held_in self.new s u ≡
            (if s == session then None else held_in self.old s u) }
    {
        self.units.retain(|_, holders| {
            holders.take_out(session);
            holders.is_held()
        });
    }

    /// A session that holds the region with this prefix holds it in this mode, or no more where
    /// there is none. It takes no memory.
    pub(crate) fn weaken(&mut self, session: u32, prefix: &Bits, mode: Option<Mode>)
        requires held { IsSome (held_in self.old session prefix.now.bits) }
        requires weaker { mode ≡ Some Mode.X →
            held_in self.old session prefix.now.bits ≡ Some Mode.X }
        ensures { (s : ℕ) (u : List Bool) → held_in self.new s u ≡
            (if (s == session) && same_bits u prefix.now.bits then mode
            else held_in self.old s u) }
    {
        match self.units.get_mut(prefix) {
            Some(holders) => holders.weaken(session, mode),
            None => unreachable!(),
        }
    }

    /// Who holds the first region holds the second one too, in the same mode, and nobody else does.
    /// After a refusal all is as before.
    pub(crate) fn inherit(&mut self, from: &Bits, to: &Bits) -> Result<(), OutOfMemory>
        ensures ok { OnOk result ((s : ℕ) (u : List Bool) → held_in self.new s u ≡
            (if same_bits u to.now.bits then held_in self.old s from.now.bits
            else held_in self.old s u)) }
        ensures err { OnErr result (self.new ≡ self.old) }
    {
        let holders = self.holders_of(from)?;
        let to = to.copy_of()?;
        self.units.insert(to, holders)?;
        Ok(())
    }
    // Who holds the region with this prefix.
    fn holders_of(&self, prefix: &Bits) -> Result<Holders, OutOfMemory>
        ensures { IfOk result (λ holders. (s : ℕ) →
            holder_mode holders s ≡ held_in self.now s prefix.now.bits) }
    {
        match self.units.get(prefix) {
            Some(holders) => holders.copy_of(),
            None => Ok(Holders::Nobody),
        }
    }
    /// The oldest session that is in the way of another one's request for some regions.
    pub(crate) fn oldest_in_way(&self, asker: u32, prefixes: &[Bits], mode: Mode) -> Option<u32>
        ensures { IsLeast (is_in_way (held_in self.now) asker (prefixes_of prefixes.now) mode)
            result }
    {
        let mut oldest = None;
        for prefix in prefixes {
            oldest = older_of(oldest, self.oldest_in_way_at(asker, prefix, mode));
        }
        oldest
    }

    // The oldest session that is in the way of another one's request for one region.
    fn oldest_in_way_at(&self, asker: u32, prefix: &Bits, mode: Mode) -> Option<u32>
        ensures { IsLeast (λ k. stands_in_way asker mode (held_in self.now k prefix.now.bits) k)
            result }
    {
        match self.units.get(prefix) {
            Some(holders) => holders.oldest_in_way(asker, mode),
            None => None,
        }
    }

    // A session holds the region with this prefix from now on, in the stronger of this mode and the
    // one in which it held it. After a refusal all is as before.
    fn grant(&mut self, session: u32, prefix: &Bits, mode: Mode) -> Result<(), OutOfMemory>
        requires { (k : ℕ) →
            stands_in_way session mode (held_in self.old k prefix.now.bits) k ≡ false }
        ensures ok { OnOk result ((s : ℕ) (u : List Bool) → held_in self.new s u ≡
            (if (s == session) && same_bits u prefix.now.bits
            then Some (stronger mode (held_in self.old s u)) else held_in self.old s u)) }
        ensures err { OnErr result (self.new ≡ self.old) }
    {
        match self.units.get_mut(prefix) {
            Some(holders) => holders.add(self.alloc, session, mode),
            None => self.start(session, prefix, mode),
        }
    }

    // A session holds the region with this prefix, which has no holders.
    fn start(&mut self, session: u32, prefix: &Bits, mode: Mode) -> Result<(), OutOfMemory>
        requires { (k : ℕ) → held_in self.old k prefix.now.bits ≡ None }
        ensures ok { OnOk result ((s : ℕ) (u : List Bool) → held_in self.new s u ≡
            (if (s == session) && same_bits u prefix.now.bits
            then Some mode else held_in self.old s u)) }
        ensures err { OnErr result (self.new ≡ self.old) }
    {
        let prefix = prefix.copy_of()?;
        self.units.insert(prefix, Holders::One(session, mode))?;
        Ok(())
    }
    /// What a session that asks for some regions, in this mode, comes to. Only a grant changes
    /// anything.
    pub(crate) fn request(&mut self, asker: u32, pred: u32, prefixes: &[Bits], mode: Mode) -> Asked
        ensures answered { IsAnswered (held_in self.old) asker pred (prefixes_of prefixes.now) mode
            result }
        ensures left { LeavesIn self.old asker (prefixes_of prefixes.now) mode result self.new }
    {
        match self.oldest_in_way(asker, prefixes, mode) {
            None => match self.grant_all(asker, prefixes, mode) {
                Ok(()) => Asked::Granted,
                Err(_) => Asked::OutOfMemory,
            },
            Some(holder) => {
                if asker < holder {
                    return Asked::Wait(holder);
                }
                match self.first_in_way(holder, prefixes, mode) {
                    Ok(unit) => Asked::Died(Death {
                        session: asker,
                        holder,
                        pred,
                        unit,
                        mode,
                    }),
                    Err(_) => Asked::OutOfMemory,
                }
            }
        }
    }

    // Of some regions the first one, in the order of the prefixes, that a session holds in a mode
    // which excludes this one.
    fn first_in_way(&self, holder: u32, prefixes: &[Bits], mode: Mode) -> Result<Bits, OutOfMemory>
        requires { list_any (λ u. excludes (held_in self.now holder u) mode)
            (prefixes_of prefixes.now) ≡ true }
        ensures { IfOk result (λ unit. IsFirst (λ u. excludes (held_in self.now holder u) mode)
            (prefixes_of prefixes.now) (Some unit.bits)) }
    {
        let mut first = None;
        for i in 0..prefixes.len() {
            first = self.first_of(holder, prefixes, first, i, mode);
        }
        match first {
            Some(i) => prefixes[i].copy_of(),
            None => unreachable!(),
        }
    }

    // The place of the first of two regions, or of none and one, if the session holds the second
    // one in a mode that excludes this one.
    fn first_of(
        &self,
        holder: u32,
        prefixes: &[Bits],
        first: Option<usize>,
        i: usize,
        mode: Mode,
    ) -> Option<usize>
        requires within { i < length prefixes.now }
        requires first { ForSome first (λ j. j < length prefixes.now) }
        ensures { result ≡ (if excludes (held_in self.now holder
            (slice_index_or (prefixes_of prefixes.now) i [])) mode
            && is_first (prefixes_of prefixes.now) i first then Some i else first) }
    {
        if self.is_in_way_at(holder, &prefixes[i], mode) && comes_first(prefixes, i, first) {
            Some(i)
        } else {
            first
        }
    }

    // Whether a session holds the region with this prefix in a mode that excludes another one.
    fn is_in_way_at(&self, holder: u32, prefix: &Bits, mode: Mode) -> bool
        ensures { result ≡ excludes (held_in self.now holder prefix.now.bits) mode }
    {
        match self.mode_of(holder, prefix) {
            Some(held) => excludes_other(held, mode),
            None => false,
        }
    }

    // A session holds some regions from now on, each in the stronger of this mode and the one in
    // which it held it. After a refusal all is as before.
    fn grant_all(&mut self, session: u32, prefixes: &[Bits], mode: Mode) -> Result<(), OutOfMemory>
        requires { (k : ℕ) →
            is_in_way (held_in self.old) session (prefixes_of prefixes.now) mode k ≡ false }
        ensures ok { OnOk result
            (IsGrantedIn self.old session (prefixes_of prefixes.now) mode self.new) }
        ensures err { OnErr result (self.new ≡ self.old) }
    {
        let mut before = Vec::with_capacity(self.alloc, prefixes.len())?;
        for i in 0..prefixes.len() {
            if let Err(stop) = self.grant_noted(session, prefixes, i, mode, &mut before) {
                while let Some(held) = before.pop() {
                    self.weaken(session, &prefixes[before.len()], held);
                }
                return Err(stop);
            }
        }
        Ok(())
    }

    // A session holds the region with the prefix at a place from now on, in the stronger of this
    // mode and the one in which it held it, if it did. That one is put behind others. After a
    // refusal all is as before.
    fn grant_noted(
        &mut self,
        session: u32,
        prefixes: &[Bits],
        i: usize,
        mode: Mode,
        before: &mut Vec<Option<Mode>>,
    ) -> Result<(), OutOfMemory>
        requires within { i < length prefixes.now }
        requires free { (k : ℕ) → stands_in_way session mode
            (held_in self.old k (slice_index_or (prefixes_of prefixes.now) i [])) k ≡ false }
        ensures ok { OnOk result ((s : ℕ) (u : List Bool) → held_in self.new s u ≡
            (if (s == session) && same_bits u (slice_index_or (prefixes_of prefixes.now) i [])
            then Some (stronger mode (held_in self.old s u)) else held_in self.old s u)) }
        ensures noted { OnOk result (before.new.items ≡ before.old.items
            ++ held_in self.old session (slice_index_or (prefixes_of prefixes.now) i []) ∷ []) }
        ensures err { OnErr result (self.new ≡ self.old) }
        ensures kept { OnErr result (before.new.items ≡ before.old.items) }
    {
        let held = self.mode_of(session, &prefixes[i]);
        before.push(held)?;
        match self.grant(session, &prefixes[i], mode) {
            Ok(()) => Ok(()),
            Err(stop) => {
                before.pop();
                Err(stop)
            }
        }
    }
}

// Whether the prefix at a place comes before the one at another place, if there is another one.
fn comes_first(prefixes: &[Bits], i: usize, first: Option<usize>) -> bool
    requires within { i < length prefixes.now }
    requires first { ForSome first (λ j. j < length prefixes.now) }
    ensures { result ≡ is_first (prefixes_of prefixes.now) i first }
{
    match first {
        Some(first) => prefixes[i].cmp(&prefixes[first]).is_lt(),
        None => true,
    }
}
