//! The arguments of a compound: a list of 1 to 255.
ghost use Rattle.std.specs.Prelude.{◌≡◌, ◌<◌, ◌≤◌, length};

use std::marker::Model;

/// A `Vec` of 1 to 255 items that contracts see as their list.
#[derive(Drop)]
pub struct ArgsOf<T> {
    items: Vec<T>,
}

impl<T> Model for ArgsOf<T> {
    ghost use Rattle.std.specs.Prelude.{List, ◌≤◌, length};
    ghost use Rattle.std.specs.Coded.{coded_list};

    ghost Value = { List T };

    ghost coded = { coded_list T.code };

    ghost view = { λ it. it.items.items };

    ghost invariant = { λ it. (1 ≤ length it.items.items) × (length it.items.items ≤ 255) };
}

impl<T> ArgsOf<T> {
    /// These items, 1 to 255 of them.
    pub fn new(items: Vec<T>) -> ArgsOf<T>
        requires low { 1 ≤ length items.items }
        requires high { length items.items ≤ 255 }
        ensures { result ≡ items.items }
    {
        ArgsOf { items }
    }

    /// The items as a slice.
    pub fn as_slice(&self) -> &[T]
        ensures same { result.now ≡ self.now }
        ensures low { 1 ≤ length self.now }
        ensures high { length self.now ≤ 255 }
    {
        self.items.as_slice()
    }

    /// The items as a vector.
    pub fn into_vec(self) -> Vec<T>
        ensures same { result.items ≡ self }
        ensures low { 1 ≤ length self }
        ensures high { length self ≤ 255 }
    {
        let ArgsOf { items } = self;
        items
    }
}
