//! Desks that keep a log of their own.

use ml_desk::{Desk, DeskStop};
use ml_search::{Log, Op, Reply};
use std::alloc::Global;

/// A desk round another one, that notes what the other was asked and replied. Where there was no
/// memory for a note it is broken: the notes may lack what the other was asked from then on.
#[derive(Drop)]
pub(crate) struct Recorder<'a, 'b, D: Desk> {
    pub desk: &'a mut D,
    pub notes: &'b mut Log,
    pub alloc: Global,
    pub broken: bool,
}

impl<D: Desk> Desk for Recorder<'_, '_, D> {
    ghost use Rattle.std.specs.Prelude.{◌≡◌, refl};
    ghost use Rattle.std.proofs.Common.{◌∙◌};
    ghost use Rattle.ml_session.specs.inside.Notes.{Notes, notes_none, notes_on};

    type Site = D::Site;

    ghost log = { λ r. D.log r.desk.now };

    ghost decls = { λ r. D.decls r.desk.now };

    ghost site = { λ r. D.site r.desk.now };

    ghost died = { λ r. D.died r.desk.now };

    ghost stays = { λ r s. (r.desk.ghost_name ≡ s.desk.ghost_name)
        × (r.notes.ghost_name ≡ s.notes.ghost_name) × D.stays r.desk.now s.desk.now
        × Notes r.broken s.broken (D.log r.desk.now) (D.log s.desk.now) r.notes.now s.notes.now };

    ghost stays_itself = { λ r. (
      refl,
      refl,
      D.stays_itself r.desk.now,
      notes_none r.broken (D.log r.desk.now) r.notes.now,
    ) };

    ghost stays_on = { λ r s t p q. (
      p.0 ∙ q.0,
      p.1 ∙ q.1,
      D.stays_on r.desk.now s.desk.now t.desk.now p.2 q.2,
      notes_on r.broken s.broken t.broken (D.log r.desk.now) (D.log s.desk.now) (D.log t.desk.now)
          r.notes.now s.notes.now t.notes.now p.3 q.3,
    ) };

    ghost is_logged = { λ r. D.is_logged r.desk.now };

    fn ask(&mut self, op: &Op) -> Result<Reply, DeskStop> {
        let whole = !self.broken;
        self.broken = true;
        let reply = self.desk.ask(op)?;
        let op = op.copy_of(self.alloc)?;
        self.notes.push(op, reply.copy_of(self.alloc)?)?;
        self.broken = !whole;
        Ok(reply)
    }
}
