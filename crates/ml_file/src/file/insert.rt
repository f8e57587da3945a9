//! A term comes to a file.
ghost use Rattle.std.specs.Prelude.{◌≡◌, ◌≢◌, ◌≤◌, true, false, IfOk, IsTrue, OnErr};
ghost use Rattle.std.specs.List.{All};
ghost use Rattle.ml_file.specs.Files.{items_in};
ghost use Rattle.ml_file.specs.Inserting.{IsInserted, count_after};
ghost use Rattle.ml_file.specs.Settled.{MakesNoneThin};
ghost use Rattle.ml_region.specs.declared.item.Item.{Item};
ghost use Rattle.ml_search.specs.Db.{is_allowed};
ghost use Rattle.ml_term.specs.Seen.{seen};
ghost use Rattle.ml_term.specs.Valid.{is_valid};

use crate::OutOfMemory;
use crate::file::{BangFile, Put};
use ml_bits::Bits;
use ml_key::key_of;
use ml_region::{Id, Item};
use ml_term::{Kind, Term};

// The item that an insert puts.
fn inserted_item(key: Bits, t: Term, number: u64, change: u32) -> Item
    requires { IsTrue (is_valid (seen t)) }
    ensures key { result.key ≡ key }
    ensures term { result.term ≡ t }
    ensures number { result.number ≡ number }
    ensures committed { result.committed ≡ true }
    ensures front { result.front ≡ false }
    ensures id { result.id ≡ record { place = 0; change = change } }
{
    Item {
        key,
        term: t,
        number,
        committed: true,
        front: false,
        id: Id { place: 0, change },
    }
}

impl BangFile {
    /// Puts a tuple, or a clause with its storage number, into the file under its key, if no item
    /// has that. The item is committed and not front; its place is 0, and its change is how many
    /// inserts added an item before. No region is made thin. The answer `Present` comes for tuples
    /// alone, since a clause's number is its own, and then nothing changes. After an error only the
    /// room of prefixes may have grown.
    pub fn insert(&mut self, t: Term, number: u64) -> Result<Put, OutOfMemory>
        requires allowed { IsTrue (is_allowed self.old.decl (seen t)) }
        requires numbered { self.old.decl.kind ≡ Kind.Clauses →
            All (λ (x : Item). x.number ≢ number) (items_in self.old.regions) }
        ensures ok { IfOk result (λ put. IsInserted put self.old t number self.new) }
        ensures clauses { self.old.decl.kind ≡ Kind.Clauses → IfOk result (λ put. put ≡ Put.Added) }
        ensures present { IfOk result (λ put. put ≡ Put.Present → self.new ≡ self.old) }
        ensures thin { MakesNoneThin self.old.regions self.new.regions }
        ensures err { OnErr result (self.new.regions ≡ self.old.regions) }
        ensures added { OnErr result (self.new.added ≡ self.old.added) }
        ensures decl { self.new.decl ≡ self.old.decl }
        ensures room { self.old.room ≤ self.new.room }
    {
        let change = self.added;
        let key = key_of(self.alloc, &self.decl, &t, number)?;
        let item = inserted_item(key, t, number, change);
        let put = self.put(item)?;
        self.note(put);
        Ok(put)
    }

    // Counts an insert, if it added an item.
    fn note(&mut self, put: Put)
        ensures { self.new ≡ record self.old { added = count_after put self.old.added } }
    {
        match put {
            Put::Added => self.added = self.added.saturating_add(1),
            Put::Present => (),
        }
    }
}
