//! The limits of terms and keys.
ghost use Rattle.std.specs.Prelude.{◌≡◌, pos};
ghost use Rattle.ml_term.specs.Limits.{integer_count, integer_offset, max_arguments};
ghost use Rattle.ml_term.specs.Limits.{max_coded_name_bytes, max_keyed_arguments, max_name_bytes};
ghost use Rattle.ml_term.specs.Limits.{max_term_nodes};

/// Integers run from minus this number to this number less one.
pub const INTEGER_OFFSET: i64 = 2305843009213693952;

/// How many integers there are.
pub const INTEGER_COUNT: u64 = 4611686018427387904;

/// The most bytes of a name.
pub const MAX_NAME_BYTES: usize = 255;

/// The most arguments of a compound.
pub const MAX_ARGUMENTS: usize = 255;

/// The most keyed arguments of a declaration.
pub const MAX_KEYED_ARGUMENTS: u8 = 8;

/// A code tells the length of a name up to this number.
pub const MAX_CODED_NAME_BYTES: usize = 63;

/// The most nodes of a term that stands as bytes.
pub const MAX_TERM_NODES: usize = 4096;

/// The code's limits are those of the definitions. The function does nothing: its contract says so.
pub fn limits_of_terms()
    ensures name_bytes { MAX_NAME_BYTES ≡ max_name_bytes }
    ensures arguments { MAX_ARGUMENTS ≡ max_arguments }
    ensures integer_offset { INTEGER_OFFSET ≡ pos integer_offset }
    ensures integer_count { INTEGER_COUNT ≡ integer_count }
    ensures keyed_arguments { MAX_KEYED_ARGUMENTS ≡ max_keyed_arguments }
    ensures coded_name_bytes { MAX_CODED_NAME_BYTES ≡ max_coded_name_bytes }
    ensures term_nodes { MAX_TERM_NODES ≡ max_term_nodes }
{}
