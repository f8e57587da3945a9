//! Who holds one unit.
ghost use Rattle.std.specs.Prelude.{◌≡◌, ◌↔◌, ℕ, ◌==◌, IfOk, IsSome, IsTrue, None, OnErr, OnOk, Option, Some, false, if◌then◌else◌};
ghost use Rattle.ml_locks.specs.Changes.{stronger};
ghost use Rattle.ml_locks.specs.Requests.{IsLeast};
ghost use Rattle.ml_locks.specs.inside.Stored.{holder_mode};
ghost use Rattle.ml_locks.specs.inside.Waiting.{stands_in_way};

use crate::OutOfMemory;
use crate::waiting::{excludes_other, oldest_other, stronger_of};
use ml_desk::Mode;
use std::alloc::Global;

/// Who holds a unit: nobody, one session in some mode, or some sessions that all only read.
#[derive(Drop)]
pub(crate) enum Holders {
    Nobody,
    One(u32, Mode),
    Readers(Vec<u32>),
}

impl Holders {
    /// The mode in which a session is among them, if it is.
    pub(crate) fn mode_of(&self, session: u32) -> Option<Mode>
        ensures { result ≡ holder_mode self.now session }
    {
        match self {
            Holders::Nobody => None,
            Holders::One(holder, mode) => {
                if *holder == session {
                    Some(*mode)
                } else {
                    None
                }
            }
            Holders::Readers(sessions) => {
                if sessions.contains(&session) {
                    Some(Mode::S)
                } else {
                    None
                }
            }
        }
    }

    /// Whether there is any.
    pub(crate) fn is_held(&self) -> bool
        ensures { IsTrue result ↔ (session : ℕ) × IsSome (holder_mode self.now session) }
    {
        match self {
            Holders::Nobody => false,
            Holders::One(_, _) => true,
            Holders::Readers(sessions) => !sessions.is_empty(),
        }
    }
    /// A session is among them no more. It takes no memory.
    pub(crate) fn take_out(&mut self, session: u32)
        ensures { (s : ℕ) → holder_mode self.new s ≡
            (if s == session then None else holder_mode self.old s) }
    {
        match self {
            Holders::Nobody => {}
            Holders::One(holder, _) => {
                if *holder == session {
                    *self = Holders::Nobody;
                }
            }
            Holders::Readers(sessions) => sessions.retain(|holder| *holder != session),
        }
    }

    /// A session that is among them is among them in this mode, or no more where there is none. It
    /// takes no memory.
    pub(crate) fn weaken(&mut self, session: u32, mode: Option<Mode>)
        requires held { IsSome (holder_mode self.old session) }
        requires weaker { mode ≡ Some Mode.X → holder_mode self.old session ≡ Some Mode.X }
        ensures { (s : ℕ) → holder_mode self.new s ≡
            (if s == session then mode else holder_mode self.old s) }
    {
        match mode {
            None => self.take_out(session),
            Some(mode) => {
                if let Holders::One(_, held) = self {
                    *held = mode;
                }
            }
        }
    }

    /// The same holders.
    pub(crate) fn copy_of(&self) -> Result<Holders, OutOfMemory>
        ensures { IfOk result (λ copy. (s : ℕ) →
            holder_mode copy s ≡ holder_mode self.now s) }
    {
        Ok(match self {
            Holders::Nobody => Holders::Nobody,
            Holders::One(holder, mode) => Holders::One(*holder, *mode),
            Holders::Readers(sessions) => {
                Holders::Readers(Vec::from_slice(*sessions.allocator(), sessions)?)
            }
        })
    }
    /// The oldest of them, but for a session, whose mode excludes the one that this session asks
    /// for.
    pub(crate) fn oldest_in_way(&self, asker: u32, mode: Mode) -> Option<u32>
        ensures { IsLeast (λ k. stands_in_way asker mode (holder_mode self.now k) k) result }
    {
        match self {
            Holders::Nobody => None,
            Holders::One(holder, held) => {
                if *holder != asker && excludes_other(*held, mode) {
                    Some(*holder)
                } else {
                    None
                }
            }
            Holders::Readers(sessions) => match mode {
                Mode::S => None,
                Mode::X => oldest_other(sessions, asker),
            },
        }
    }

    /// A session is among them from now on, in the stronger of this mode and the one in which it
    /// was among them. After a refusal they are as before.
    pub(crate) fn add(&mut self, alloc: Global, session: u32, mode: Mode) -> Result<(), OutOfMemory>
        requires { (k : ℕ) → stands_in_way session mode (holder_mode self.old k) k ≡ false }
        ensures ok { OnOk result ((s : ℕ) → holder_mode self.new s ≡
            (if s == session then Some (stronger mode (holder_mode self.old s))
            else holder_mode self.old s)) }
        ensures err { OnErr result ((s : ℕ) → holder_mode self.new s ≡ holder_mode self.old s) }
    {
        match self {
            Holders::Nobody => *self = Holders::One(session, mode),
            Holders::One(holder, held) => {
                if *holder == session {
                    *held = stronger_of(mode, *held);
                } else {
                    *self = Holders::Readers([*holder, session].to_vec(alloc)?);
                }
            }
            Holders::Readers(sessions) => match mode {
                Mode::X => *self = Holders::One(session, Mode::X),
                Mode::S => {
                    if !sessions.contains(&session) {
                        sessions.push(session)?;
                    }
                }
            },
        }
        Ok(())
    }
}
