//! Terms stored in a heap, with new variables.
ghost use Rattle.std.specs.Prelude.{◌≡◌, ◌+◌, ◌++◌, ◌∷◌, [], ℕ, List, length, IsTrue, IfOk, OnOk};
ghost use Rattle.std.specs.Prelude.{OnErr};
ghost use Rattle.ml_term.specs.Tree.{rename, width, variable, variables, variables_of, trees_of};
ghost use Rattle.ml_term.specs.Seen.{seen, all_seen};
ghost use Rattle.ml_term.specs.Valid.{is_valid, are_valid};
ghost use Rattle.ml_heap.specs.Changes.{variable_count, KeepsMarks, Grows, HasTree};
ghost use Rattle.ml_heap.specs.Storing.{Knows, IsStored, AreStored};

use crate::heap::Heap;
use crate::met::MetVariables;
use crate::place::Ref;
use ml_term::Term;
use std::alloc::AllocError;

impl Heap {
    /// A cell that stands for a new copy of a term: its variables are created by first place,
    /// whatever their numbers were. All other cells stay. After a refusal, for want of memory or of
    /// numbers of variables, the heap is as it was.
    pub fn store_tree(&mut self, t: &Term) -> Result<Ref, AllocError>
        requires { IsTrue (is_valid (seen t.now)) }
        ensures stored { IfOk result (λ r.
            HasTree self.old self.new r (rename (variable_count self.old) (seen t.now))) }
        ensures counted { OnOk result (variable_count self.new ≡ variable_count self.old
            + width (seen t.now)) }
        ensures refused { OnErr result (self.new ≡ self.old) }
    {
        let mark = self.mark();
        let mut met = MetVariables::new(self.allocator());
        match self.store(t, &mut met) {
            Ok(at) => Ok(at),
            Err(refused) => {
                self.undo_to(mark);
                Err(refused)
            }
        }
    }

    // Stores a term, where some variables were met before.
    #[cycle(store)]
    fn store(&mut self, t: &Term, met: &mut MetVariables) -> Result<Ref, AllocError>
        requires valid { IsTrue (is_valid (seen t.now)) }
        requires known { (base : ℕ) × ((ns : List ℕ) × Knows self.old base ns met.old) }
        ensures stored { IfOk result (λ r. (base : ℕ) (ns : List ℕ) →
            Knows self.old base ns met.old →
            IsStored self.new base (ns ++ variables (seen t.now)) met.new r (seen t.now)) }
        ensures grown { OnOk result (Grows self.old self.new) }
        ensures marks { KeepsMarks self.old self.new }
    {
        match t {
            Term::Var(n) => Ok(self.store_variable(*n, met)?),
            Term::Int(v) => Ok(self.new_int(*v)?),
            Term::Atom(f) => Ok(self.new_atom(f)?),
            Term::Cmp(f, ts) => {
                let args = self.store_all(ts.as_slice(), met)?;
                Ok(self.new_cmp(f, args.as_slice())?)
            }
        }
    }

    // Stores some terms, from the left.
    #[cycle(store)]
    fn store_all(&mut self, ts: &[Term], met: &mut MetVariables) -> Result<Vec<Ref>, AllocError>
        requires valid { IsTrue (are_valid (trees_of (all_seen ts.now))) }
        requires known { (base : ℕ) × ((ns : List ℕ) × Knows self.old base ns met.old) }
        ensures stored { IfOk result (λ rs. (base : ℕ) (ns : List ℕ) →
            Knows self.old base ns met.old →
            AreStored self.new base (ns ++ variables_of (trees_of (all_seen ts.now))) met.new
            rs.items
            (trees_of (all_seen ts.now))) }
        ensures many { IfOk result (λ rs. length rs.items ≡ length ts.now) }
        ensures grown { OnOk result (Grows self.old self.new) }
        ensures marks { KeepsMarks self.old self.new }
    {
        let mut cells = Vec::new(self.allocator());
        for t in ts {
            cells.push(self.store(t, met)?)?;
        }
        Ok(cells)
    }

    /// The cell of a variable of a term that is being stored, by the variable's number there: a new
    /// one where it wasn't met before. All other cells stay.
    pub fn store_variable(&mut self, n: u32, met: &mut MetVariables) -> Result<Ref, AllocError>
        requires { (base : ℕ) × ((ns : List ℕ) × Knows self.old base ns met.old) }
        ensures stored { IfOk result (λ r. (base : ℕ) (ns : List ℕ) →
            Knows self.old base ns met.old →
            IsStored self.new base (ns ++ n ∷ []) met.new r (variable n)) }
        ensures grown { OnOk result (Grows self.old self.new) }
        ensures marks { KeepsMarks self.old self.new }
    {
        match met.find(n) {
            Some(at) => Ok(Ref::at(at)),
            None => {
                let at = self.new_var()?;
                met.add(n, at.place())?;
                Ok(at)
            }
        }
    }
}
