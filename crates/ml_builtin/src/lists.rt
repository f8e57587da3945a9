//! Lists on the heap: cells `'.'(Head, Tail)` that end in `[]`. Nothing recurs, however long a list
//! is.
ghost use Rattle.std.specs.Prelude.{◌≡◌, ◌<◌, codes, IfOk, MatchOption, OnOk, map};
ghost use Rattle.std.specs.Str.{bytes_eq};
ghost use Rattle.ml_term.specs.Tree.{compound_2};
ghost use Rattle.ml_heap.specs.Changes.{AreCells, cell_count, HasOneMore, HasTree, KeepsMarks};
ghost use Rattle.ml_heap.specs.Changes.{stands_for, variable_count};
ghost use Rattle.ml_search.specs.ListTerms.{elements, list_end, list_term};
ghost use Rattle.ml_builtin.specs.inside.Lists.{IsCell, IsNoCell};

use ml_heap::{Heap, Look, Ref};
use ml_term::Name;
use std::alloc::AllocError;

// The cells of a list's elements, and the cell behind its last one.
#[derive(Drop)]
pub(crate) struct Elements {
    pub(crate) cells: Vec<Ref>,
    pub(crate) end: Ref,
}

// The elements of a list, and what stands behind its last cell. The heap is only read.
pub(crate) fn elements_of(heap: &Heap, list: Ref) -> Result<Elements, AllocError>
    requires { list < cell_count heap.now }
    ensures end_inside { IfOk result (λ found. found.end < cell_count heap.now) }
    ensures end { IfOk result (λ found.
        stands_for heap.now found.end ≡ list_end (stands_for heap.now list)) }
    ensures inside { IfOk result (λ found. AreCells (cell_count heap.now) found.cells.items) }
    ensures cells { IfOk result (λ found.
        map (stands_for heap.now) found.cells.items ≡ elements (stands_for heap.now list)) }
{
    let mut cells = Vec::new(heap.allocator());
    let mut end = list;
    while let Some((head, tail)) = cell_of(heap, end) {
        cells.push(head)?;
        end = tail;
    }
    Ok(Elements { cells, end })
}

// The head and the tail of a list's cell.
fn cell_of(heap: &Heap, at: Ref) -> Option<(Ref, Ref)>
    requires { at < cell_count heap.now }
    ensures { MatchOption result (IsNoCell (stands_for heap.now at))
        (λ cell. IsCell heap.now (stands_for heap.now at) cell.0 cell.1) }
{
    match heap.look(at) {
        Look::Var(_) => None,
        Look::Int(_) => None,
        Look::Atom(_) => None,
        Look::Cmp(name, arity) => {
            if arity != 2 {
                return None;
            }
            if is_dot(name) {
                Some((heap.arg(at, 0), heap.arg(at, 1)))
            } else {
                None
            }
        }
    }
}

// Whether this is the name of a list's cells.
fn is_dot(name: &Name) -> bool
    ensures { result ≡ bytes_eq name.now (codes ".") }
{
    name.as_slice() == b".".as_slice()
}

// A cell that stands for the list of some cells' terms. All other cells stay.
pub(crate) fn make_list(heap: &mut Heap, cells: &[Ref]) -> Result<Ref, AllocError>
    requires { AreCells (cell_count heap.old) cells.now }
    ensures made { IfOk result (λ r. HasTree heap.old heap.new r
        (list_term (map (stands_for heap.old) cells.now))) }
    ensures counted { OnOk result (variable_count heap.new ≡ variable_count heap.old) }
    ensures marks { KeepsMarks heap.old heap.new }
{
    let alloc = heap.allocator();
    let mut list = heap.new_atom(&Name::new(alloc, b"[]")?)?;
    let name = Name::new(alloc, b".")?;
    let mut i = cells.len();
    while i > 0 {
        i -= 1;
        list = new_cell(heap, &name, cells[i], list)?;
    }
    Ok(list)
}

// A cell that stands for a list's cell of a head and a tail. All other cells stay.
fn new_cell(heap: &mut Heap, name: &Name, head: Ref, tail: Ref) -> Result<Ref, AllocError>
    requires dot { name.now ≡ codes "." }
    requires head_inside { head < cell_count heap.old }
    requires tail_inside { tail < cell_count heap.old }
    ensures made { IfOk result (λ r. HasOneMore heap.old heap.new r
        (compound_2 (codes ".") (stands_for heap.old head) (stands_for heap.old tail))) }
    ensures counted { variable_count heap.new ≡ variable_count heap.old }
    ensures marks { KeepsMarks heap.old heap.new }
{
    let args = [head, tail];
    Ok(heap.new_cmp(name, &args)?)
}
