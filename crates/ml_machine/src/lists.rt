//! Lists on the heap.
ghost use Rattle.std.specs.Prelude.{◌≡◌, ◌<◌, codes, IfOk, OnOk, map};
ghost use Rattle.ml_term.specs.Tree.{compound_2};
ghost use Rattle.ml_heap.specs.Changes.{AreCells, cell_count, HasOneMore, HasTree, KeepsMarks};
ghost use Rattle.ml_heap.specs.Changes.{stands_for, variable_count};
ghost use Rattle.ml_search.specs.ListTerms.{list_term};

use ml_heap::{Heap, Ref};
use ml_term::Name;
use std::alloc::AllocError;

/// A cell that stands for the list of some cells' terms. All other cells stay.
pub(crate) fn make_list(heap: &mut Heap, cells: &[Ref]) -> Result<Ref, AllocError>
    requires { AreCells (cell_count heap.old) cells.now }
    ensures made { IfOk result (λ r. HasTree heap.old heap.new r
        (list_term (map (stands_for heap.old) cells.now))) }
    ensures counted { OnOk result (variable_count heap.new ≡ variable_count heap.old) }
    ensures marks { KeepsMarks heap.old heap.new }
{
    let alloc = heap.allocator();
    let mut list = heap.new_atom(&Name::new(alloc, b"[]")?)?;
    let name = Name::new(alloc, b".")?;
    let mut i = cells.len();
    while i > 0 {
        i -= 1;
        list = new_cell(heap, &name, cells[i], list)?;
    }
    Ok(list)
}

/// A cell that stands for a list's cell of a head and a tail. All other cells stay.
fn new_cell(heap: &mut Heap, name: &Name, head: Ref, tail: Ref) -> Result<Ref, AllocError>
    requires dot { name.now ≡ codes "." }
    requires head_inside { head < cell_count heap.old }
    requires tail_inside { tail < cell_count heap.old }
    ensures made { IfOk result (λ r. HasOneMore heap.old heap.new r
        (compound_2 (codes ".") (stands_for heap.old head) (stands_for heap.old tail))) }
    ensures counted { variable_count heap.new ≡ variable_count heap.old }
    ensures marks { KeepsMarks heap.old heap.new }
{
    let args = [head, tail];
    Ok(heap.new_cmp(name, &args)?)
}
