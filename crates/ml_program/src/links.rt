//! Links beside a code.
ghost use Rattle.std.specs.Prelude.{◌≡◌};

use crate::link::Link;
use std::marker::Model;

/// The links beside a code, one for each instruction, read where a call stands. Contracts see the
/// list.
#[derive(Drop)]
pub struct Links {
    items: Vec<Link>,
}

impl Model for Links {
    ghost use Rattle.std.specs.Prelude.{List};
    ghost use Rattle.ml_program.specs.declared.link.Link.{Link};

    ghost Value = { List Link };

    ghost view = { λ l. l.items.items };
}

impl Links {
    /// The list of a vector's links. It takes no memory.
    pub(crate) fn from_vec(items: Vec<Link>) -> Links
        ensures { result ≡ items.items }
    {
        Links { items }
    }

    /// The links as a slice. It takes no memory.
    pub fn as_slice(&self) -> &[Link]
        ensures { result.now ≡ self.now }
    {
        self.items.as_slice()
    }
}
