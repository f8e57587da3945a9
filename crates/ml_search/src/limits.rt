//! The limits of programs, scripts, items and unifiers.
ghost use Rattle.std.specs.Prelude.{◌≡◌};
ghost use Rattle.ml_search.specs.Limits.{default_inferences, max_changes, max_declarations};
ghost use Rattle.ml_search.specs.Limits.{max_goals, max_inferences, max_item_bytes};

/// The most inferences that a script may give as its budget.
pub const MAX_INFERENCES: u32 = 200000;

/// The budget of a script that gives none.
pub const DEFAULT_INFERENCES: u32 = 20000;

/// The most goals of a script.
pub const MAX_GOALS: usize = 4294967294;

/// The most declarations of a program.
pub const MAX_DECLARATIONS: usize = 4294967295;

/// The most canonical bytes of an item.
pub const MAX_ITEM_BYTES: usize = 4096;

/// The most changes of a session, which is then told that its lists are full.
pub const MAX_CHANGES: usize = 20000;

/// The most levels of a term that unification builds: a deeper one is answered as want of memory.
pub const MAX_UNIFIER_LEVELS: usize = 4096;

/// The code's limits are those of the definitions. The function does nothing: its contract says so.
pub fn limits_of_sessions()
    ensures inferences { MAX_INFERENCES ≡ max_inferences }
    ensures default_inferences { DEFAULT_INFERENCES ≡ default_inferences }
    ensures goals { MAX_GOALS ≡ max_goals }
    ensures declarations { MAX_DECLARATIONS ≡ max_declarations }
    ensures item_bytes { MAX_ITEM_BYTES ≡ max_item_bytes }
    ensures changes { MAX_CHANGES ≡ max_changes }
{}
