//! Laws of the plain list of any part of a file's items: of those that pass a test. The functions
//! do nothing: their contracts are the laws.
ghost use Rattle.std.specs.Prelude.{◌≡◌, ◌≢◌, true, false, Bool, List, Contains};
ghost use Rattle.std.specs.List.{All, filter};
ghost use Rattle.std.specs.declared.cmp.Ordering.TheVariants.{Equal};
ghost use Rattle.ml_file.specs.Adding.{IsAdded};
ghost use Rattle.ml_file.specs.Files.{items_in, IsRemoved};
ghost use Rattle.ml_file.specs.ListSteps.{with_item, without_key};
ghost use Rattle.ml_file.specs.Marking.{HasMark};
ghost use Rattle.ml_file.specs.PlainList.{item_cmp, IsListOf, IsWith};
ghost use Rattle.ml_file.specs.Settled.{HasSameItems};
ghost use Rattle.ml_region.specs.Changes.{with_mark};
ghost use Rattle.ml_region.specs.Regions.{Region};
ghost use Rattle.ml_region.specs.declared.item.Id.{Id};
ghost use Rattle.ml_region.specs.declared.item.Item.{Item};

use ml_term::Kind;

/// Plain lists of any items.
/// `comes`: an item that none equals in the order goes to its place. `goes`: without an item, the
/// list is the one without its key. `part`: the list of those that pass a test is the filter of the
/// list.
pub fn lists_of_any_items(kind: Kind)
    ensures comes { (before after list : List Item) (item : Item) → IsWith before item after →
        ((x : Item) → Contains before x → item_cmp kind x item ≢ Equal) →
        IsListOf kind before list → IsListOf kind after (with_item kind item list) }
    ensures goes { (before after list : List Item) (item : Item) → IsWith after item before →
        All (λ (x : Item). x.key.bits ≢ item.key.bits) after →
        IsListOf kind before list → IsListOf kind after (without_key item.key.bits list) }
    ensures part { (items list : List Item) (test : Item → Bool) → IsListOf kind items list →
        IsListOf kind (filter test items) (filter test list) }
{}

/// An insert is that of the list of a part.
/// `inside`: where the item passes the test, it goes to its place. `outside`: else the list stays.
pub fn an_insert_is_that_of_a_part(kind: Kind)
    ensures inside { (old new : List Region) (item : Item) (list : List Item)
        (test : Item → Bool) → IsAdded old item new →
        (kind ≡ Kind.Clauses → All (λ (x : Item). x.number ≢ item.number) (items_in old)) →
        test item ≡ true → IsListOf kind (filter test (items_in old)) list →
        IsListOf kind (filter test (items_in new)) (with_item kind item list) }
    ensures outside { (old new : List Region) (item : Item) (list : List Item)
        (test : Item → Bool) → IsAdded old item new → test item ≡ false →
        IsListOf kind (filter test (items_in old)) list →
        IsListOf kind (filter test (items_in new)) list }
{}

/// A removal is that of the list of a part, whether the item passes the test or not.
pub fn a_removal_is_that_of_a_part(kind: Kind)
    ensures { (old new : List Region) (key : List Bool) (list : List Item)
        (test : Item → Bool) → IsRemoved old key new →
        IsListOf kind (filter test (items_in old)) list →
        IsListOf kind (filter test (items_in new)) (without_key key list) }
{}

/// A mark is a removal and an insert in the list of a part, by whether the item passes the test as
/// it was marked. Nothing equals the marked item in the order, of those that pass the test and have
/// other keys.
/// `inside`: it passes. `outside`: it does not.
pub fn a_mark_is_that_of_a_part(kind: Kind)
    ensures inside { (old new : List Region) (key : List Bool) (committed : Bool) (id : Id)
        (list : List Item) (test : Item → Bool) → (mark : HasMark old key committed id new) →
        test (with_mark mark.item committed id) ≡ true →
        ((x : Item) → Contains (filter test (items_in old)) x → x.key.bits ≢ key →
        item_cmp kind x (with_mark mark.item committed id) ≢ Equal) →
        IsListOf kind (filter test (items_in old)) list →
        IsListOf kind (filter test (items_in new))
        (with_item kind (with_mark mark.item committed id) (without_key key list)) }
    ensures outside { (old new : List Region) (key : List Bool) (committed : Bool) (id : Id)
        (list : List Item) (test : Item → Bool) → (mark : HasMark old key committed id new) →
        test (with_mark mark.item committed id) ≡ false →
        IsListOf kind (filter test (items_in old)) list →
        IsListOf kind (filter test (items_in new)) (without_key key list) }
{}

/// Settling keeps the list of every part.
pub fn settling_keeps_the_list_of_a_part(kind: Kind)
    ensures { (old new : List Region) (list : List Item) (test : Item → Bool) →
        HasSameItems old new → IsListOf kind (filter test (items_in old)) list →
        IsListOf kind (filter test (items_in new)) list }
{}
