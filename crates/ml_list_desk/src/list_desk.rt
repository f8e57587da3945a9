//! The desk over plain lists.
ghost use Rattle.std.specs.Prelude.{◌≡◌, ◌≤◌, ◌++◌, ◌∷◌, [], true, IsTrue, IfOk, OnErr, None, length, map};
ghost use Rattle.std.specs.Prelude.{vec_capacity, vec_len};
ghost use Rattle.ml_desk.specs.Deaths.{death_of};
ghost use Rattle.ml_list_desk.specs.Items.{lists_of_terms, lists_seen};
ghost use Rattle.ml_list_desk.specs.inside.ListDesks.{asks_change, IsListDesk};
ghost use Rattle.ml_list_desk.specs.inside.TreeCodes.{counts_are_a_set, cursors_are_a_set, decls_are_a_set};
ghost use Rattle.ml_list_desk.specs.inside.TreeCodes.{lists_are_a_set, numbers_are_a_set};
ghost use Rattle.ml_list_desk.specs.inside.TreeCodes.{replies_are_a_set, tests_are_a_set};
ghost use Rattle.std.specs.Coded.{le_prop};
ghost use Rattle.ml_search.specs.Db.{is_db, load_lists, mine, terms};
ghost use Rattle.ml_search.specs.Operations.{is_reply_after, is_valid_after, next, opens};
ghost use Rattle.ml_search.specs.Replay.{db_after_log, Replays};
ghost use Rattle.ml_search.specs.Seen.{log_seen, operation_seen, reply_seen};
ghost use Rattle.ml_search.specs.declared.operation.Op.TheVariants as op;
ghost use Rattle.ml_term.specs.Seen.{seen};

mod making;

use crate::list_cursor::ListCursor;
use crate::list_desk::making::{loaded_lists, plain_lists};
use crate::list_item::ListItems;
use crate::operations::change;
use crate::plain_list::PlainList;
use crate::replies::item_reply;
use ml_desk::{Desk, DeskStop};
use ml_search::{Decls, Op, Reply};
use ml_term::{Term, Terms};
use std::alloc::{AllocError, Global};
use std::snapshot::Snapshot;

/// A desk over plain lists, one for each declaration. Its replies are those that the definitions
/// give over the lists that it was made of, and it has its changes in its lists. It never answers
/// that a session died, and where `ask` is refused memory its log and its lists stay.
#[derive(Drop)]
pub struct ListDesk {
    decls: Decls,
    lists: Vec<PlainList>,
    cursors: Vec<ListCursor>,
    changes: u32,
    log: Vec<(Op, Reply)>,
    room: Vec<Terms>,
    first: Snapshot<Vec<ListItems>>,
    ghost kept: { IsListDesk decls lists.items cursors.items changes log.items
        first.value.items } by { Prim.hlevel (
          decls_are_a_set,
          lists_are_a_set,
          cursors_are_a_set,
          replies_are_a_set,
          tests_are_a_set,
          counts_are_a_set,
          numbers_are_a_set,
          le_prop,
        ) },
    ghost empty: { vec_len room ≡ 0 },
    ghost roomy: { vec_len lists ≤ vec_capacity room },
}

impl ListDesk {
    /// A desk of these declarations that was asked nothing, over plain lists of loaded items, one
    /// list for each declaration: a relation's terms in the order of their keys, and clauses in
    /// their order. An item's place is 0, and its number is its place in the list, from 0. The
    /// numbers have 32 bits, so a list of 2^32 terms or more is answered as want of memory.
    ///
    /// After a refusal there is no desk, and the lists are gone.
    pub fn new(alloc: Global, decls: &Decls, lists: Vec<Terms>) -> Result<ListDesk, AllocError>
        requires { IsTrue (is_db decls.now (load_lists (lists_of_terms lists.items))) }
        ensures log { IfOk result (λ desk. desk.log.items ≡ []) }
        ensures decls { IfOk result (λ desk. desk.decls ≡ decls.now) }
        ensures site { IfOk result (λ desk.
            lists_seen desk.first.value.items ≡ load_lists (lists_of_terms lists.items)) }
    {
        let items = loaded_lists(alloc, lists)?;
        ListDesk::of_items(alloc, decls, items)
    }

    /// The same over items that keep their ids, of which there may be any number. After a refusal
    /// there is no desk, and the items are gone.
    pub fn of_items(
        alloc: Global,
        decls: &Decls,
        items: Vec<ListItems>,
    ) -> Result<ListDesk, AllocError>
        requires { IsTrue (is_db decls.now (lists_seen items.items)) }
        ensures log { IfOk result (λ desk. desk.log.items ≡ []) }
        ensures decls { IfOk result (λ desk. desk.decls ≡ decls.now) }
        ensures site { IfOk result (λ desk. desk.first.value ≡ items) }
    {
        let first = Snapshot::of(&items);
        let lists = plain_lists(alloc, decls, items)?;
        let decls = decls.copy_of(alloc)?;
        let room = Vec::with_capacity(alloc, lists.len())?;
        let cursors = Vec::new(alloc);
        let log = Vec::new(alloc);
        Ok(ListDesk {
            decls,
            lists,
            cursors,
            changes: 0,
            log,
            room,
            first,
        })
    }

    /// What was asked, with the replies.
    /// `replays`: they are those of the plain lists that the desk was made of.
    pub fn log(&self) -> &[(Op, Reply)]
        ensures same { result.now ≡ self.now.log.items }
        ensures replays { Replays self.now.decls (lists_seen self.now.first.value.items)
            (log_seen self.now.log.items) }
    {
        self.log.as_slice()
    }

    /// The terms of each list as the log left them, for each declaration in the list's order. It
    /// takes no memory.
    pub fn into_lists(self) -> Vec<Terms>
        ensures { lists_of_terms result.items ≡ map terms (db_after_log self.decls
            (lists_seen self.first.value.items) (log_seen self.log.items) mine) }
    {
        let ListDesk {
            decls: _,
            lists,
            cursors: _,
            changes: _,
            log: _,
            room,
            first: _,
        } = self;
        let mut taken = room;
        for list in lists {
            let terms = list.into_terms();
            taken.push_reserved(terms);
        }
        taken
    }

    /// The items of each list as the log left them, for each declaration in the list's order, with
    /// their ids: those that the log put are the session's own, each with the number of its change,
    /// from 0, and all others have the ids that they came with. After a refusal the desk and its
    /// items are gone.
    pub fn into_items(self) -> Result<Vec<ListItems>, AllocError>
        ensures { IfOk result (λ items. lists_seen items.items ≡ db_after_log self.decls
            (lists_seen self.first.value.items) (log_seen self.log.items) mine) }
    {
        let alloc = *self.log.allocator();
        let ListDesk {
            decls: _,
            lists,
            cursors: _,
            changes: _,
            log: _,
            room: _,
            first: _,
        } = self;
        let mut items = Vec::new(alloc);
        for list in lists {
            let held = list.into_items(alloc)?;
            items.push(held)?;
        }
        Ok(items)
    }

    // Opens a cursor over a declaration's list. Cursors' numbers have 32 bits.
    fn open(&mut self, d: u32, pattern: &Term) -> Result<Reply, AllocError>
        requires { IsTrue (is_valid_after self.old.decls (log_seen self.old.log.items)
            (opens d (seen pattern.now))) }
        ensures logged { IfOk result (λ reply.
            self.new.log.items ≡ self.old.log.items ++ (op.Open d pattern.now, reply) ∷ []) }
        ensures kind { IfOk result (λ reply. IsTrue (is_reply_after self.old.decls
            (log_seen self.old.log.items) (opens d (seen pattern.now)) (reply_seen reply))) }
        ensures refused { OnErr result (self.new.log.items ≡ self.old.log.items) }
        ensures refused_lists { OnErr result (self.new.lists.items ≡ self.old.lists.items) }
        ensures decls { self.new.decls ≡ self.old.decls }
        ensures first { self.new.first.value ≡ self.old.first.value }
    {
        let alloc = *self.log.allocator();
        let count = self.cursors.len();
        if count > u32::MAX as usize {
            return Err(AllocError);
        }
        let number = count as u32;
        let entry = Op::Open(d, pattern.copy_of(alloc)?);
        let list = &self.lists[d as usize];
        let members = list.meeting(pattern)?;
        self.log.reserve(1)?;
        self.cursors.push(ListCursor { list: d, members })?;
        self.log.push_reserved((entry, Reply::Cursor(number)));
        Ok(Reply::Cursor(number))
    }

    // Asks a cursor for an item.
    fn next(&mut self, c: u32, i: u32) -> Result<Reply, AllocError>
        requires { IsTrue (is_valid_after self.old.decls (log_seen self.old.log.items) (next c i)) }
        ensures logged { IfOk result (λ reply.
            self.new.log.items ≡ self.old.log.items ++ (op.Next c i, reply) ∷ []) }
        ensures kind { IfOk result (λ reply. IsTrue (is_reply_after self.old.decls
            (log_seen self.old.log.items) (next c i) (reply_seen reply))) }
        ensures refused { OnErr result (self.new.log.items ≡ self.old.log.items) }
        ensures refused_lists { OnErr result (self.new.lists.items ≡ self.old.lists.items) }
        ensures decls { self.new.decls ≡ self.old.decls }
        ensures first { self.new.first.value ≡ self.old.first.value }
    {
        let alloc = *self.log.allocator();
        let reply = item_reply(alloc, self.lists.as_slice(), self.cursors.as_slice(), c, i)?;
        let copy = reply.copy_of(alloc)?;
        self.log.reserve(1)?;
        self.log.push_reserved((Op::Next(c, i), copy));
        Ok(reply)
    }

    // Changes a list.
    fn change(&mut self, op: &Op) -> Result<Reply, AllocError>
        requires valid { IsTrue (is_valid_after self.old.decls (log_seen self.old.log.items)
            (operation_seen op.now)) }
        requires change { IsTrue (asks_change (operation_seen op.now)) }
        ensures logged { IfOk result (λ reply.
            self.new.log.items ≡ self.old.log.items ++ (op.now, reply) ∷ []) }
        ensures kind { IfOk result (λ reply. IsTrue (is_reply_after self.old.decls
            (log_seen self.old.log.items) (operation_seen op.now) (reply_seen reply))) }
        ensures refused { OnErr result (self.new.log.items ≡ self.old.log.items) }
        ensures refused_lists { OnErr result (self.new.lists.items ≡ self.old.lists.items) }
        ensures decls { self.new.decls ≡ self.old.decls }
        ensures first { self.new.first.value ≡ self.old.first.value }
    {
        let alloc = *self.log.allocator();
        let entry = op.copy_of(alloc)?;
        self.log.reserve(1)?;
        let outcome = change(
            alloc,
            &self.decls,
            self.lists.as_mut_slice(),
            self.cursors.as_slice(),
            self.changes,
            op,
        )?;
        self.changes += outcome.count();
        self.log.push_reserved((entry, outcome.reply()));
        Ok(outcome.reply())
    }
}

impl Desk for ListDesk {
    ghost use Rattle.std.specs.Prelude.{Option, None};

    type Site = Vec<ListItems>;

    ghost log = { λ d. d.log.items };

    ghost decls = { λ d. d.decls };

    ghost site = { λ d. d.first.value };

    ghost died = { λ d. None };

    ghost stays = { λ d e. Unit {0} };

    ghost stays_itself = { λ d. tt };

    ghost stays_on = { λ d e f p q. tt };

    ghost is_logged = { λ d. d.kept.logged };

    /// Asks one operation. The one refusal is want of memory, as which an opening is answered too
    /// where 2^32 cursors are open.
    /// `replays`: the log has the replies of the plain lists that the desk was made of.
    /// `refused`, `refused_lists`: after a refusal log and lists stay, so the same operation may be
    /// asked again.
    fn ask(&mut self, op: &Op) -> Result<Reply, DeskStop>
        requires valid { IsTrue (is_valid_after self.old.decls (log_seen self.old.log.items)
            (operation_seen op.now)) }
        ensures logged { IfOk result (λ reply.
            self.new.log.items ≡ self.old.log.items ++ (op.now, reply) ∷ []) }
        ensures kind { IfOk result (λ reply. IsTrue (is_reply_after self.old.decls
            (log_seen self.old.log.items) (operation_seen op.now) (reply_seen reply))) }
        ensures died { death_of result ≡ None }
        ensures decls { self.new.decls ≡ self.old.decls }
        ensures site { self.new.first.value ≡ self.old.first.value }
        ensures replays { Replays self.new.decls (lists_seen self.new.first.value.items)
            (log_seen self.new.log.items) }
        ensures refused { OnErr result (self.new.log.items ≡ self.old.log.items) }
        ensures refused_lists { OnErr result (self.new.lists.items ≡ self.old.lists.items) }
    {
        match op {
            Op::Open(d, pattern) => Ok(self.open(*d, pattern)?),
            Op::Next(c, i) => Ok(self.next(*c, *i)?),
            Op::Insert(_) => Ok(self.change(op)?),
            Op::Delete(_) => Ok(self.change(op)?),
            Op::Assertz(_) => Ok(self.change(op)?),
            Op::Asserta(_) => Ok(self.change(op)?),
            Op::DeleteAt(_, _) => Ok(self.change(op)?),
        }
    }
}
