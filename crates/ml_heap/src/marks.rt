//! Laws of marks. The function does nothing: its contract is the laws, for the layers above and for
//! the reader.
ghost use Rattle.std.specs.Prelude.{◌≡◌, ℕ, ◌≤◌, length};
ghost use Rattle.ml_heap.specs.Changes.{Changes, heap_of_mark, KeepsMarks};

/// Marks of one heap, and undoing to them one after another.
/// `counted`: the heap of a mark has as many changes as the mark says, so it is its own latest
/// mark.
/// `earlier`: an earlier mark has the same heap in that of a later one, so it may still be undone
/// to.
/// `stay`, `go_on`: marks stay where nothing changes, and go on to stay from call to call.
pub fn marks_keep_their_heaps()
    ensures counted { (h : Changes) (m : ℕ) → m ≤ length h → length (heap_of_mark h m) ≡ m }
    ensures earlier { (h : Changes) (m n : ℕ) → m ≤ n → n ≤ length h →
        heap_of_mark (heap_of_mark h n) m ≡ heap_of_mark h m }
    ensures stay { (h : Changes) → KeepsMarks h h }
    ensures go_on { (a b c : Changes) → KeepsMarks a b → KeepsMarks b c → KeepsMarks a c }
{}
