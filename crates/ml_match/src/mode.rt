//! In which mode a term of a head is matched with the term of a cell.
ghost use Rattle.std.specs.Prelude.{◌<◌};
ghost use Rattle.ml_term.specs.Tree.{Tree, integer, atom};
ghost use Rattle.ml_heap.specs.Changes.{cell_count, stands_for};
ghost use Rattle.ml_match.specs.inside.Modes.{IsCompound, IsMode};

use ml_compile::Instr;
use ml_heap::{Heap, Look, Ref};
use ml_term::Name;

// How a term of a head, by its first instruction, is matched with the term of a cell.
#[derive(Clone, Copy)]
pub(crate) enum Mode {
    /// Not at all: they are of different kinds, values, names or arities.
    Clash,
    /// They agree so far, and the arguments of compounds are matched next.
    Read,
    /// One of them is a variable: the head's term is built, and unified with the cell's.
    Write,
}

// The mode for a cell and the first instruction of a head's term. It takes no memory.
pub(crate) fn mode_of(heap: &Heap, cell: Ref, instr: &Instr) -> Mode
    requires { cell < cell_count heap.now }
    ensures { IsMode (stands_for heap.now cell) instr.now result }
{
    match heap.look(cell) {
        Look::Var(_) => Mode::Write,
        Look::Int(value) => integer_mode(value, instr),
        Look::Atom(name) => atom_mode(name, instr),
        Look::Cmp(name, arity) => compound_mode(name, arity, instr),
    }
}

// The mode for an integer.
fn integer_mode(value: i64, instr: &Instr) -> Mode
    ensures { IsMode (integer value) instr.now result }
{
    match instr {
        Instr::GetInt(other) if value == *other => Mode::Read,
        Instr::GetInt(_) | Instr::GetAtom(_) | Instr::GetCmp(_, _, _) => Mode::Clash,
        _ => Mode::Write,
    }
}

// The mode for an atom.
fn atom_mode(name: &Name, instr: &Instr) -> Mode
    ensures { IsMode (atom name.now) instr.now result }
{
    match instr {
        Instr::GetAtom(other) if name.is(other) => Mode::Read,
        Instr::GetAtom(_) | Instr::GetInt(_) | Instr::GetCmp(_, _, _) => Mode::Clash,
        _ => Mode::Write,
    }
}

// The mode for a compound.
fn compound_mode(name: &Name, arity: u8, instr: &Instr) -> Mode
    ensures { (t : Tree) → IsCompound name.now arity t → IsMode t instr.now result }
{
    match instr {
        Instr::GetCmp(other, count, _) if arity == *count && name.is(other) => Mode::Read,
        Instr::GetCmp(_, _, _) | Instr::GetInt(_) | Instr::GetAtom(_) => Mode::Clash,
        _ => Mode::Write,
    }
}
