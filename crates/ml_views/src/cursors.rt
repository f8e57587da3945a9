//! Open cursors.
ghost use Rattle.std.specs.Prelude.{◌≡◌, ◌≢◌, ◌++◌, ◌∷◌, ◌<◌, ◌-◌, ◌^◌, [], length, take, None, Some};
ghost use Rattle.std.specs.Prelude.{OnOk, OnErr, IfOk, option_copied, option_map, slice_get};
ghost use Rattle.ml_views.specs.OpenCursors.{opened, with_last_key};

use ml_bits::{Bits, OutOfMemory};
use ml_term::Term;
use std::alloc::Global;
use std::marker::Model;

/// A cursor: what it was opened with, and how far it has come.
#[derive(Drop)]
pub struct Cursor {
    /// The declaration over whose items it goes, from 0.
    pub pred: u32,
    /// The pattern that the items it gives unify with.
    pub pattern: Term,
    /// The place in the session's log of the operation that opened it, from 0: what the session did
    /// from there on it doesn't see.
    pub stamp: usize,
    /// The key of the item that it gave last.
    pub last_key: Option<Bits>,
}

/// The cursors of a live session, numbered from 0 in the order in which they were opened. Contracts
/// see the list.
#[derive(Drop)]
pub struct Cursors {
    items: Vec<Cursor>,
}

impl Model for Cursors {
    ghost use Rattle.std.specs.Coded.{coded_list};
    ghost use Rattle.std.specs.Prelude.{List, length, ◌<◌, ◌^◌};
    ghost use Rattle.ml_views.specs.contracts.cursors.Cursor as cursor;
    ghost use Rattle.ml_views.specs.declared.cursors.Cursor.{Cursor};

    ghost Value = { List Cursor };

    ghost coded = { coded_list cursor.the_row.coded };

    ghost view = { λ c. c.items.items };

    ghost invariant = { λ c. length c.items.items < 2 ^ 32 };
}

impl Cursors {
    /// No cursors. It takes no memory.
    pub fn new(alloc: Global) -> Cursors
        ensures { result ≡ [] }
    {
        Cursors {
            items: Vec::new(alloc),
        }
    }

    /// How many cursors are open.
    pub fn len(&self) -> u32
        ensures { result ≡ length self.now }
    {
        self.items.len() as u32
    }

    /// Opens a cursor over the items of a declaration that unify with a pattern, as the session saw
    /// them at a stamp, and gives its number: how many were open. After an error nothing has
    /// changed, and the pattern is gone; that may also be where 2^32 - 1 cursors are open.
    pub fn start(&mut self, pred: u32, pattern: Term, stamp: usize) -> Result<u32, OutOfMemory>
        ensures number { IfOk result (λ number. number ≡ length self.old) }
        ensures ok { OnOk result (self.new ≡ self.old ++ opened pred pattern stamp ∷ []) }
        ensures err { OnErr result (self.new ≡ self.old) }
    {
        let number = self.len();
        if number == u32::MAX {
            return Err(OutOfMemory);
        }
        self.items.push(Cursor {
            pred,
            pattern,
            stamp,
            last_key: None,
        })?;
        Ok(number)
    }

    /// Notes that a cursor gave the item under a key. It takes no memory.
    pub fn advance(&mut self, c: u32, key: Bits)
        requires { c < length self.old }
        ensures { self.new ≡ with_last_key self.old c key }
    {
        self.items[c as usize].last_key = Some(key);
    }

    /// The key of the item that a cursor gave last; `None` exactly where it has given none.
    pub fn last_key(&self, c: u32) -> Option<&Bits>
        requires { c < length self.now }
        ensures { option_map (λ cursor. cursor.last_key) (slice_get self.now c)
            ≡ Some (option_copied result) }
    {
        self.cursor(c).last_key.as_ref()
    }

    /// The declaration that a cursor was opened over.
    pub fn pred_of(&self, c: u32) -> u32
        requires { c < length self.now }
        ensures { option_map (λ cursor. cursor.pred) (slice_get self.now c) ≡ Some result }
    {
        self.cursor(c).pred
    }

    /// The pattern that a cursor was opened with.
    pub fn pattern_of(&self, c: u32) -> &Term
        requires { c < length self.now }
        ensures { option_map (λ cursor. cursor.pattern) (slice_get self.now c) ≡ Some result.now }
    {
        &self.cursor(c).pattern
    }

    /// The stamp that a cursor was opened with.
    pub fn stamp_of(&self, c: u32) -> usize
        requires { c < length self.now }
        ensures { option_map (λ cursor. cursor.stamp) (slice_get self.now c) ≡ Some result }
    {
        self.cursor(c).stamp
    }

    /// Closes the cursor that was opened last. It takes no memory.
    pub fn close_last(&mut self)
        requires { self.old ≢ [] }
        ensures { self.new ≡ take (length self.old - 1) self.old }
    {
        self.items.pop();
    }

    /// Closes all cursors. It takes no memory.
    pub fn clear(&mut self)
        ensures { self.new ≡ [] }
    {
        self.items.clear();
    }

    // An open cursor.
    fn cursor(&self, c: u32) -> &Cursor
        requires { c < length self.now }
        ensures { slice_get self.now c ≡ Some result.now }
    {
        &self.items[c as usize]
    }
}
