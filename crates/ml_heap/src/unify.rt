//! Unification of the terms of two cells, by the rules for equations of trees. Pairs of cells wait
//! on a worklist, the first equation last, so that no long list needs a deep recursion.
ghost use Rattle.std.specs.Prelude.{◌≡◌, ◌<◌, ◌++◌, true, false, length, map, reverse, Some, IfOk};
ghost use Rattle.std.specs.Prelude.{OnOk, IsTrue};
ghost use Rattle.std.specs.Option.{is_some};
ghost use Rattle.std.specs.List.{zip};
ghost use Rattle.ml_term.specs.Unify.{Map, unifier, mgu, apply, step, clash};
ghost use Rattle.ml_heap.specs.Changes.{trees, cell_count, variable_count, stands_for, KeepsMarks};
ghost use Rattle.ml_heap.specs.inside.Equations.{equations_left, AreBelow, IsTurn};
ghost use Rattle.ml_heap.specs.inside.Rules.{Applies};

use crate::cell::Cell;
use crate::heap::Heap;
use crate::place::Ref;
use std::alloc::AllocError;

// What is to be done with the equation of two cells.
enum Rule<'a> {
    /// Both sides are equal: nothing.
    Same,
    /// The sides can't be made equal.
    Clash,
    /// The variable of the first cell is to be bound to the second cell, unless it occurs there.
    Bind(Ref, Ref),
    /// The arguments are to be made equal, one pair after another.
    Split(&'a [usize], &'a [usize]),
}

impl Heap {
    /// Makes the terms of two cells equal by their most general unifier, which replaces variables
    /// in every tree: of two variables the younger by the older. `Ok(true)` exactly where there is
    /// one. After `Ok(false)` and where memory was wanting some bindings may have been made, but no
    /// cell; every mark still has its heap, so undoing to one gives it back.
    pub fn unify(&mut self, a: Ref, b: Ref) -> Result<bool, AllocError>
        requires a_inside { a < cell_count self.old }
        requires b_inside { b < cell_count self.old }
        ensures found { IfOk result (λ ok. ok
            ≡ is_some (unifier (stands_for self.old a) (stands_for self.old b))) }
        ensures replaced { (m : Map) → unifier (stands_for self.old a) (stands_for self.old b)
            ≡ Some m →
            OnOk result (trees self.new ≡ map (apply m) (trees self.old)) }
        ensures cells { cell_count self.new ≡ cell_count self.old }
        ensures counted { variable_count self.new ≡ variable_count self.old }
        ensures marks { KeepsMarks self.old self.new }
    {
        let mut left = Vec::new(self.allocator());
        Ok(self.turn(a.place(), b.place(), &mut left)? && self.solve(left)?)
    }

    // Solves the equations that some pairs of cells have left, the latest pair first.
    fn solve(&mut self, mut left: Vec<(usize, usize)>) -> Result<bool, AllocError>
        requires { AreBelow (cell_count self.old) left.items }
        ensures found { IfOk result (λ ok. ok
            ≡ is_some (mgu (equations_left (trees self.old) left.items))) }
        ensures replaced { (m : Map) → mgu (equations_left (trees self.old) left.items) ≡ Some m →
            OnOk result (trees self.new ≡ map (apply m) (trees self.old)) }
        ensures cells { cell_count self.new ≡ cell_count self.old }
        ensures counted { variable_count self.new ≡ variable_count self.old }
        ensures marks { KeepsMarks self.old self.new }
    {
        while let Some((a, b)) = left.pop() {
            if !self.turn(a, b, &mut left)? {
                return Ok(false);
            }
        }
        Ok(true)
    }

    // Applies the rule for the equation of two cells, and says whether the sides may be equal.
    fn turn(
        &mut self,
        a: usize,
        b: usize,
        left: &mut Vec<(usize, usize)>,
    ) -> Result<bool, AllocError>
        requires a_inside { a < cell_count self.old }
        requires b_inside { b < cell_count self.old }
        requires left_inside { AreBelow (cell_count self.old) left.old.items }
        ensures turned { IfOk result (λ ok. ok ≡ true →
            IsTurn (trees self.old) (stands_for self.old a) (stands_for self.old b)
            (equations_left (trees self.old) left.old.items)
            (trees self.new) (equations_left (trees self.new) left.new.items)) }
        ensures clashed { IfOk result (λ ok. ok ≡ false →
            step (stands_for self.old a) (stands_for self.old b) ≡ clash) }
        ensures inside { OnOk result (AreBelow (cell_count self.old) left.new.items) }
        ensures cells { cell_count self.new ≡ cell_count self.old }
        ensures counted { variable_count self.new ≡ variable_count self.old }
        ensures marks { KeepsMarks self.old self.new }
    {
        match self.rule(Ref::at(a), Ref::at(b)) {
            Rule::Same => Ok(true),
            Rule::Clash => Ok(false),
            Rule::Split(first, second) => {
                push_pairs(left, first, second)?;
                Ok(true)
            }
            Rule::Bind(var, to) => {
                if self.occurs_in(var, to)? {
                    return Ok(false);
                }
                self.bind(var, to)?;
                Ok(true)
            }
        }
    }

    // The rule that the terms of two cells call for. It takes no memory.
    fn rule(&self, a: Ref, b: Ref) -> Rule<'_>
        requires a_inside { a < cell_count self.now }
        requires b_inside { b < cell_count self.now }
        ensures { Applies self.now (stands_for self.now a) (stands_for self.now b) result }
    {
        let (first, one) = self.end_at(a);
        let (second, other) = self.end_at(b);
        if first.place() == second.place() {
            return Rule::Same;
        }
        match (one, other) {
            (Cell::Unbound(m), Cell::Unbound(n)) => {
                if m == n {
                    Rule::Same
                } else if m < n {
                    Rule::Bind(b, a)
                } else {
                    Rule::Bind(a, b)
                }
            }
            (Cell::Unbound(_), _) => Rule::Bind(a, b),
            (_, Cell::Unbound(_)) => Rule::Bind(b, a),
            (Cell::Int(y), Cell::Int(z)) => same_if(y == z),
            (Cell::Atom(f), Cell::Atom(g)) => same_if(f.is(g)),
            (Cell::Cmp(f, ts, _), Cell::Cmp(g, us, _)) => {
                let (ts, us) = (ts.as_slice(), us.as_slice());
                if ts.len() == us.len() && f.is(g) {
                    Rule::Split(ts, us)
                } else {
                    Rule::Clash
                }
            }
            _ => Rule::Clash,
        }
    }
}

// Nothing where both sides are the same, and else a clash.
fn same_if<'a>(same: bool) -> Rule<'a>
    ensures same { IsTrue same → result ≡ Rule.Same }
    ensures clash { same ≡ false → result ≡ Rule.Clash }
{
    if same { Rule::Same } else { Rule::Clash }
}

// Puts pairs of cells last, the first pair after all others.
fn push_pairs(
    left: &mut Vec<(usize, usize)>,
    first: &[usize],
    second: &[usize],
) -> Result<(), AllocError>
    requires { length first.now ≡ length second.now }
    ensures { OnOk result (left.new.items ≡ left.old.items ++ reverse (zip first.now second.now)) }
{
    let mut i = first.len();
    while i > 0 {
        i -= 1;
        left.push((first[i], second[i]))?;
    }
    Ok(())
}
