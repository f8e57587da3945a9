//! Laws of what the stacks stand for. The functions do nothing: their contracts are the laws, for
//! the layer above and for the reader.
ghost use Rattle.ml_asking.specs.Asking.{ChoicePoint, Member, Move};
ghost use Rattle.ml_asking.specs.Leads.{Leads};
ghost use Rattle.ml_asking.specs.TurnWords.{at_goals};
ghost use Rattle.ml_asking.specs.Asking.{AskingSearch};
ghost use Rattle.ml_search.specs.Operations.{Log};
ghost use Rattle.ml_search.specs.Program.{Program};
ghost use Rattle.ml_search.specs.Actions.{Branch, success, Continuation, map_continuation};
ghost use Rattle.ml_stack.specs.Apart.{IsApart, Splits};
ghost use Rattle.ml_stack.specs.Memories.{AreTrees, CompiledProcedure, Contents, Grows, IsMoment};
ghost use Rattle.ml_stack.specs.Memories.{IsTree, memory_of, now_of};
ghost use Rattle.ml_stack.specs.Stands.{Continues, Holds, lower, Runs, Stacked, View};
ghost use Rattle.ml_stack.specs.declared.frame.At.{At};
ghost use Rattle.ml_stack.specs.declared.frame.Frame.{Frame};
ghost use Rattle.ml_stack.specs.declared.moment.Moment.{Moment};
ghost use Rattle.ml_term.specs.Tree.{Tree};
ghost use Rattle.ml_term.specs.Unify.{apply, Map};
ghost use Rattle.std.specs.Prelude.{length, List, map, slice_get, Some, suc, ℕ, [], ◌≡◌, ◌≤◌};

/// The memory of a moment stays whatever comes behind it.
/// `stays`: as memory grows, a moment stays one, of the same memory. `nests`: a moment of an
/// earlier memory is one of the later, of the same memory. `now`: the present moment has the memory
/// as it is.
pub fn a_moment_keeps_its_memory()
    ensures stays { (M N : Contents) (u : Map) (m : Moment) → Grows M N u → IsMoment M m →
        IsMoment N m × (memory_of N m ≡ memory_of M m) }
    ensures nests { (M : Contents) (m k : Moment) → IsMoment M m → IsMoment (memory_of M m) k →
        IsMoment M k × (memory_of (memory_of M m) k ≡ memory_of M k) }
    ensures now { (M : Contents) → IsMoment M (now_of M) × (memory_of M (now_of M) ≡ M) }
{}

/// What stands for goals is carried along as memory grows, under the map by which it grows.
/// `continues`, `runs`: from a link or a place on. `tree`, `trees`: cells, with their trees.
/// `plainly`: with nothing bound the goals are the same.
/// `stacked`: choices stand for the same choice points, each in the memory of its moment.
pub fn a_continuation_is_carried()
    ensures continues { (ps : List CompiledProcedure) (M N : Contents) (u : Map) (w : View)
        (n l : ℕ) (gs : Continuation Member) → Grows M N u → Continues ps M w n l gs →
        Continues ps N w n l (map_continuation u gs) }
    ensures runs { (ps : List CompiledProcedure) (M N : Contents) (u : Map) (w : View) (n : ℕ)
        (a : At) (gs : Continuation Member) → Grows M N u → Runs ps M w n a gs →
        Runs ps N w n a (map_continuation u gs) }
    ensures tree { (M N : Contents) (u : Map) (r : ℕ) (t : Tree) → Grows M N u → IsTree M r t →
        IsTree N r (apply u t) }
    ensures trees { (M N : Contents) (u : Map) (rs : List ℕ) (ts : List Tree) → Grows M N u →
        AreTrees M rs ts → AreTrees N rs (map (apply u) ts) }
    ensures plainly { (ps : List CompiledProcedure) (M N : Contents) (w : View) (n l : ℕ)
        (gs : Continuation Member) → Grows M N [] → Continues ps M w n l gs →
        Continues ps N w n l gs }
    ensures stacked { (ps : List CompiledProcedure) (M N : Contents) (u : Map) (w : View) →
        Grows M N u → Stacked ps M w → Stacked ps N w }
{}

/// Of the choice points a continuation needs those below its number alone.
/// `below`: so it stands in each view that is the same there. `weaker`: a greater number allows it
/// too. `lower`: it stands where all others are cut. `many`: choices and choice points are as many.
pub fn a_continuation_needs_what_is_below()
    ensures below { (ps : List CompiledProcedure) (M : Contents) (w v : View) (n l : ℕ)
        (gs : Continuation Member) → lower n w ≡ lower n v → Continues ps M w n l gs →
        Continues ps M v n l gs }
    ensures weaker { (ps : List CompiledProcedure) (M : Contents) (w : View) (n k l : ℕ)
        (gs : Continuation Member) → n ≤ k → Continues ps M w n l gs → Continues ps M w k l gs }
    ensures lower { (ps : List CompiledProcedure) (M : Contents) (w : View) (h l : ℕ)
        (gs : Continuation Member) → h ≤ length w.choice_points → Continues ps M w h l gs →
        Continues ps M (lower h w) (length (lower h w).choice_points) l gs }
    ensures many { (ps : List CompiledProcedure) (M : Contents) (w : View) → Stacked ps M w →
        length w.choices ≡ length w.choice_points }
{}

/// The goals at a place are taken apart until the first one is no conjunction, by turns.
/// `apart`: the instruction at the place spells the first of them. `turns`: the search goes there.
/// `ends`, `frame`: what stands at the end of a continuation, and at a frame.
pub fn a_place_is_taken_apart()
    ensures apart { (ps : List CompiledProcedure) (M : Contents) (w : View) (n : ℕ) (a : At)
        (gs : Continuation Member) → Runs ps M w n a gs → IsApart ps M w n a gs }
    ensures turns { (p : Program) (v : Move) (before after : Log) (m : AskingSearch)
        (b : Branch Member) (r : List ChoicePoint) (gs hs : Continuation Member) → Splits gs hs →
        Leads p v before (at_goals gs b r m) after → Leads p v before (at_goals hs b r m) after }
    ensures ends { (ps : List CompiledProcedure) (M : Contents) (w : View) (n : ℕ)
        (gs : Continuation Member) → Continues ps M w n 0 gs → gs ≡ success }
    ensures frame { (ps : List CompiledProcedure) (M : Contents) (w : View) (n i : ℕ) (f : Frame)
        (gs : Continuation Member) → slice_get M.frames i ≡ Some f → Continues ps M w n (suc i) gs →
        Holds ps M w n f gs }
{}
