//! Laws of files: their plain lists, their items and their thin regions. The functions do nothing:
//! their contracts are the laws.
ghost use Rattle.std.specs.Prelude.{◌≡◌, ◌≢◌, ◌≤◌, ◌+◌, ◌*◌, ℕ, Bool, IsTrue, List, Contains};
ghost use Rattle.std.specs.Prelude.{length, ◌∷◌, ◌++◌, []};
ghost use Rattle.std.specs.List.{All, AllPairs};
ghost use Rattle.std.specs.declared.cmp.Ordering.TheVariants.{Less};
ghost use Rattle.ml_file.specs.Adding.{IsAdded};
ghost use Rattle.ml_file.specs.Files.{items_in, IsAbsent, IsFile, IsHeld, IsRemoved};
ghost use Rattle.ml_file.specs.Hits.{is_hit};
ghost use Rattle.ml_file.specs.ListSteps.{with_item, without_key};
ghost use Rattle.ml_file.specs.PlainList.{item_cmp, IsListOf};
ghost use Rattle.ml_file.specs.Settled.{AreSettled, IsSettledThrough, MakesNoneThin};
ghost use Rattle.ml_key.specs.ItemKeys.{item_key};
ghost use Rattle.ml_region.specs.Limits.{min_region_items};
ghost use Rattle.ml_region.specs.Regions.{IsWellPlaced, Region};
ghost use Rattle.ml_region.specs.declared.item.Item.{Item};
ghost use Rattle.ml_search.specs.Db.{is_allowed};
ghost use Rattle.ml_search.specs.Program.{is_of};
ghost use Rattle.ml_term.specs.Patterns.{fits, pattern_of};
ghost use Rattle.ml_term.specs.Tree.{Tree};
ghost use Rattle.ml_term.specs.declared.declaration.Decl.{Decl};

use ml_term::Kind;

/// Some items have one plain list at most.
pub fn items_have_one_list(kind: Kind)
    ensures { (items first second : List Item) → IsListOf kind items first →
        IsListOf kind items second → first ≡ second }
{}

/// The items of a file have a plain list.
pub fn files_have_a_list()
    ensures { (decl : Decl) (regions : List Region) (room : ℕ) → IsWellPlaced regions →
        IsFile decl regions room →
        (list : List Item) × IsListOf decl.kind (items_in regions) list }
{}

/// A look for a key is that of the plain list.
/// `held`: the item that has the key is in the list. `absent`: where no item has the key, none of
/// the list has it.
pub fn a_look_is_that_of_the_list(kind: Kind)
    ensures held { (regions : List Region) (key : List Bool) (item : Item) (list : List Item) →
        IsListOf kind (items_in regions) list →
        IsHeld regions key item → Contains list item × (item.key.bits ≡ key) }
    ensures absent { (regions : List Region) (key : List Bool) (list : List Item) →
        IsListOf kind (items_in regions) list →
        IsAbsent regions key → All (λ (x : Item). x.key.bits ≢ key) list }
{}

/// An insert that adds an item is that of the plain list.
/// `after`: the list afterwards is the one before with the item at its place; a clause's number is
/// its own. `before`: the list before is the one afterwards without the item's key.
pub fn an_insert_is_that_of_the_list(kind: Kind)
    ensures after { (old new : List Region) (item : Item) (list : List Item) →
        IsAdded old item new →
        (kind ≡ Kind.Clauses → All (λ (x : Item). x.number ≢ item.number) (items_in old)) →
        IsListOf kind (items_in old) list →
        IsListOf kind (items_in new) (with_item kind item list) }
    ensures before { (old new : List Region) (item : Item) (list : List Item) →
        IsAdded old item new → IsListOf kind (items_in new) list →
        IsListOf kind (items_in old) (without_key item.key.bits list) }
{}

/// A removal is that of the plain list.
/// `after`: the list afterwards is the one before without the key. `before`: the list before is the
/// one afterwards with the item at its place; a clause's number is its own.
pub fn a_removal_is_that_of_the_list(kind: Kind)
    ensures after { (old new : List Region) (key : List Bool) (list : List Item) →
        IsRemoved old key new → IsListOf kind (items_in old) list →
        IsListOf kind (items_in new) (without_key key list) }
    ensures before { (old new : List Region) (key : List Bool) (list : List Item) →
        (removed : IsRemoved old key new) →
        (kind ≡ Kind.Clauses → All (λ (x : Item). x.number ≢ removed.item.number) (items_in new)) →
        IsListOf kind (items_in new) list →
        IsListOf kind (items_in old) (with_item kind removed.item list) }
{}

/// An item that comes after all others goes to the end of the list, and one that comes before them
/// to its front.
pub fn an_item_at_an_end(kind: Kind)
    ensures last { (item : Item) (list : List Item) → All (λ x. item_cmp kind x item ≡ Less) list →
        with_item kind item list ≡ list ++ item ∷ [] }
    ensures first { (item : Item) (list : List Item) → All (λ x. item_cmp kind item x ≡ Less) list →
        with_item kind item list ≡ item ∷ list }
{}

/// How many items a file has.
/// `once`: no two items of a file have one key. `count`: the plain list has as many items as the
/// regions together. `few`: in a settled file all regions but the first have at least 8.
pub fn items_stand_once(kind: Kind)
    ensures once { (regions : List Region) → IsWellPlaced regions →
        AllPairs (λ (x y : Item). x.key.bits ≢ y.key.bits) (items_in regions) }
    ensures count { (regions : List Region) (list : List Item) → IsWellPlaced regions →
        IsListOf kind (items_in regions) list →
        length list ≡ length (items_in regions) }
    ensures few { (regions : List Region) → IsWellPlaced regions → AreSettled regions →
        min_region_items * length regions ≤ min_region_items + length (items_in regions) }
{}

/// The key of an item that a pattern meets fits the pattern.
pub fn what_is_met_fits()
    ensures { (decl : Decl) (pattern t : Tree) (number : ℕ) →
        IsTrue (is_of decl.pred.name decl.pred.arity pattern) → IsTrue (is_allowed decl t) →
        IsTrue (is_hit decl.kind pattern t) →
        IsTrue (fits (pattern_of decl.keys pattern) (item_key decl.kind decl.keys t number)) }
{}

/// Settled files.
/// `stay`: where a change makes no region thin, a settled file stays settled. `rest`: settling
/// leaves a settled file as it was.
pub fn settled_files()
    ensures stay { (old new : List Region) → MakesNoneThin old new → AreSettled old →
        AreSettled new }
    ensures rest { (old new : List Region) → IsSettledThrough old new → AreSettled old → new ≡ old }
{}
