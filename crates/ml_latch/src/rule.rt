//! The rule of the table, which every step keeps.
ghost use Rattle.std.specs.Prelude.{None, Some, []};
ghost use Rattle.ml_latch.specs.Rule.{IsInTurns};
ghost use Rattle.ml_latch.specs.View.{first_view};

use crate::kept::Kept;
use crate::table::ViewOf;
use atomic_table::TableRule;
use std::marker::PhantomData;
use std::snapshot::Snapshot;

/// The seats take turns at one value.
pub(crate) struct Turns<V> {
    of: PhantomData<V>,
}

impl<V: Kept> TableRule<Option<V>, ViewOf<V>, Snapshot<V>> for Turns<V> {
    ghost holds = { λ key. IsInTurns V.past V.own V.base key.value };

    ghost first = { λ key. first_view V.past V.own key.value };
}
