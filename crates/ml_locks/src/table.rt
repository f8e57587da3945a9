//! The table of the locks of all files.
ghost use Rattle.std.specs.Prelude.{◌≡◌, ◌<◌, ◌↔◌, ℕ, IfOk, IsSome, IsTrue, OnErr, OnOk, Some, length, replicate};
ghost use Rattle.std.specs.FinMap as map;
ghost use Rattle.ml_locks.specs.Changes.{IsForgotten, IsInherited, IsReleased, IsWeakened};
ghost use Rattle.ml_locks.specs.Modes.{mode_of};
ghost use Rattle.ml_locks.specs.Requests.{IsAnswered, Leaves, modes_at, prefixes_of};

use crate::OutOfMemory;
use crate::asked::Asked;
use crate::file_locks::FileLocks;
use ml_bits::Bits;
use ml_desk::Mode;
use std::alloc::Global;
use std::marker::Model;

/// Which session holds which unit, and in which mode. A unit is a declaration's number, from 0,
/// with the prefix of a region of its file; sessions are numbered, and a smaller number is older.
/// Contracts see the modes of one file after another; `mode_of` reads them.
#[derive(Drop)]
pub struct Table {
    files: Vec<FileLocks>,
}

impl Model for Table {
    ghost use Rattle.std.specs.Coded.{coded_bool, coded_list, coded_ℕ, coded×};
    ghost use Rattle.std.specs.FinMap as map;
    ghost use Rattle.ml_desk.specs.contracts.mode.Mode as mode;
    ghost use Rattle.ml_locks.specs.Modes.{Locks};

    ghost Value = { Locks };

    ghost coded = { coded_list (map.code (coded× (coded_list coded_bool) coded_ℕ)
        mode.the_row.coded) };

    ghost view = { λ table. table.files.items };
}

impl Table {
    /// The table of so many files, of which nobody holds any region.
    pub fn new(alloc: Global, files: u32) -> Result<Table, OutOfMemory>
        ensures { IfOk result (λ table. table ≡ replicate files map.empty) }
    {
        let mut locks = Vec::with_capacity(alloc, files as usize)?;
        for _file in 0..files {
            locks.push(FileLocks::new(alloc))?;
        }
        Ok(Table { files: locks })
    }

    /// The mode in which a session holds a unit, if it holds it. Where that is the exclusive one,
    /// nobody else holds it. It takes no memory.
    pub fn mode_of(&self, session: u32, pred: u32, prefix: &Bits) -> Option<Mode>
        requires { pred < length self.now }
        ensures value { result ≡ mode_of self.now session pred prefix.now.bits }
        ensures alone { result ≡ Some Mode.X → (other : ℕ) →
            IsSome (mode_of self.now other pred prefix.now.bits) → other ≡ session }
    {
        let file = &self.files[pred as usize];
        file.mode_of(session, prefix)
    }

    /// Whether any session holds a unit. It takes no memory.
    pub fn is_held(&self, pred: u32, prefix: &Bits) -> bool
        requires { pred < length self.now }
        ensures { IsTrue result ↔ (session : ℕ) ×
            IsSome (mode_of self.now session pred prefix.now.bits) }
    {
        let file = &self.files[pred as usize];
        file.is_held(prefix)
    }
    /// What a session that asks for some units of a declaration, in this mode, comes to. Another
    /// session is in its way if it holds one of them and not both modes are shared.
    ///
    /// Where nobody is in the way the session holds each of these units, in the stronger of this
    /// mode and the one in which it held it. Else it waits for the oldest session in its way, or
    /// dies where that one is older than itself. Only a grant changes anything.
    pub fn request(&mut self, session: u32, pred: u32, units: &[Bits], mode: Mode) -> Asked
        requires { pred < length self.old }
        ensures answered { IsAnswered (modes_at self.old pred) session pred
            (prefixes_of units.now) mode result }
        ensures left { Leaves self.old session pred (prefixes_of units.now) mode result self.new }
    {
        let file = &mut self.files[pred as usize];
        file.request(session, pred, units, mode)
    }

    /// Nobody holds a unit any more. It takes no memory.
    pub fn forget(&mut self, pred: u32, prefix: &Bits)
        requires { pred < length self.old }
        ensures { IsForgotten self.old pred prefix.now.bits self.new }
    {
        let file = &mut self.files[pred as usize];
        file.forget(prefix);
    }

    /// A session holds nothing any more. It takes no memory.
    pub fn release(&mut self, session: u32)
        ensures { IsReleased self.old session self.new }
    {
        for pred in 0..self.files.len() {
            let file = &mut self.files[pred];
            file.release(session);
        }
    }

    /// A session that holds a unit holds it in this mode, or not at all where there is none. It
    /// takes no memory.
    pub fn weaken(&mut self, session: u32, pred: u32, prefix: &Bits, mode: Option<Mode>)
        requires there { pred < length self.old }
        requires held { IsSome (mode_of self.old session pred prefix.now.bits) }
        requires weaker { mode ≡ Some Mode.X →
            mode_of self.old session pred prefix.now.bits ≡ Some Mode.X }
        ensures { IsWeakened self.old session pred prefix.now.bits mode self.new }
    {
        let file = &mut self.files[pred as usize];
        file.weaken(session, prefix, mode);
    }

    /// Who holds the first unit of a declaration holds the second one too, in the same mode, and
    /// nobody else does. After a refusal all is as before.
    pub fn inherit(&mut self, pred: u32, from: &Bits, to: &Bits) -> Result<(), OutOfMemory>
        requires { pred < length self.old }
        ensures ok { OnOk result (IsInherited self.old pred from.now.bits to.now.bits self.new) }
        ensures err { OnErr result (self.new ≡ self.old) }
    {
        let file = &mut self.files[pred as usize];
        file.inherit(from, to)
    }
}
