//! A directory of a few prefixes, regions of one item, and nested regions of a few numbers.
ghost use Rattle.std.specs.Prelude.{◌≡◌, ◌≢◌, ℕ, ◌<◌, IfOk, IsTrue, length};
ghost use Rattle.ml_region.specs.Listing.{IsNewPrefix};
ghost use Rattle.ml_region.specs.Prefixes.{IsOwner};
ghost use Rattle.ml_region.specs.Regions.{IsApart, items_at, region_at, region_prefixes};

use ml_bits::Bits;
use ml_key::{Pattern, key_of, pattern_of};
use ml_region::{Directory, Id, Item, OutOfMemory, PAGE_ITEMS, Regions, SortedDir};
use ml_term::{Args, Decl, Kind, Name, Pred, Term, is_name, is_valid, nodes_up_to};
use std::alloc::{AllocError, Global};
use std::process::Abort;
use std::test::Fail;

fn named(rt: &impl Abort, alloc: Global, bytes: &[u8]) -> Result<Name, AllocError> {
    assert!(rt; is_name(bytes));
    Name::new(alloc, bytes)
}

// The declaration of the relation p/1.
fn declared(rt: &impl Abort, alloc: Global) -> Result<Decl, AllocError>
    ensures { IfOk result (λ decl. (decl.kind ≡ Kind.Relation) × (decl.pred.arity ≡ 1)) }
{
    let pred = Pred {
        name: named(rt, alloc, b"p")?,
        arity: 1,
    };
    Decl::with_default_keys(alloc, pred, Kind::Relation)
}

fn tuple(rt: &impl Abort, alloc: Global, argument: Term) -> Result<Term, AllocError> {
    let arguments = vec![in alloc; argument]?;
    Ok(Term::Cmp(named(rt, alloc, b"p")?, Args::new(arguments)))
}

// The committed item p(n).
fn item(rt: &impl Abort, alloc: Global, n: i64) -> Result<Item, AllocError> {
    let decl = declared(rt, alloc)?;
    let term = tuple(rt, alloc, Term::Int(n))?;
    assert!(rt; is_valid(&term) && term.arity() == 1 && nodes_up_to(&term, 4096) <= 4096);
    Ok(Item {
        key: key_of(alloc, &decl, &term, 0)?,
        term,
        number: 0,
        committed: true,
        front: false,
        id: Id {
            place: 0,
            change: 0,
        },
    })
}

// The pattern of p(t).
fn pattern(rt: &impl Abort, alloc: Global, t: Term) -> Result<Pattern, AllocError> {
    let decl = declared(rt, alloc)?;
    let head = tuple(rt, alloc, t)?;
    assert!(rt; is_valid(&head) && head.arity() == 1);
    Ok(pattern_of(&decl, &head))
}

// Marks the item that has a key, if there is one.
fn marked(regions: &mut Regions<SortedDir>, key: &Bits) {
    if let Some(_) = regions.find(key) {
        let id = Id {
            place: 3,
            change: 4,
        };
        regions.mark(key, false, id);
    }
}

// Merges a region, where the two have few items.
fn merged(regions: &mut Regions<SortedDir>, i: usize) -> bool {
    if i == 0 {
        return false;
    }
    let len = regions.len();
    if i >= len {
        return false;
    }
    let Some(parent) = regions.parent_of(i) else {
        return false;
    };
    let together = regions.count(parent) + regions.count(i);
    if together > PAGE_ITEMS {
        return false;
    }
    regions.merge(i);
    true
}

// A prefix is taken in, and owns the keys that begin with it.
#[test]
fn a_prefix_owns_what_it_begins(rt: HostRuntime) -> Result<(), Fail> {
    let alloc = rt.alloc();
    let mut dir = SortedDir::new(alloc)?;
    let key = Bits::from_bytes(alloc, &[0b0111_0000], 4)?;
    let other = Bits::from_bytes(alloc, &[0b1100_0000], 2)?;
    let prefix = Bits::from_bytes(alloc, &[0b0110_0000], 3)?;
    assert!(rt; dir.owner(&key) == 0 && dir.parent(&key) == Some(0));
    dir.make_room(64)?;
    assert!(rt; !prefix.is_empty());
    dir.add(prefix, 5)?;
    assert!(rt; dir.owner(&key) == 5 && dir.owner(&other) == 0 && dir.parent(&key) == Some(5));
    assert!(rt; dir.prefix_at(0).is_some_and(|p| p.is_empty()));
    assert!(rt; dir.prefix_at(1).is_some_and(|p| p.len() == 3));
    assert!(rt; dir.prefix_at(2).is_none());
    Ok(())
}

// An item comes, is found and marked, lies in a region that is cut for it, and goes.
#[test]
fn an_item_comes_and_goes(rt: HostRuntime) -> Result<(), Fail> {
    let alloc = rt.alloc();
    let mut regions = Regions::new(alloc, SortedDir::new(alloc)?)?;
    let item = item(&rt, alloc, 1)?;
    let key = item.key.copy_of()?;
    regions.place(item);
    regions.make_room(key.len())?;
    assert!(rt; regions.find(&key).is_some_and(|found| found.committed));
    marked(&mut regions, &key);
    assert!(rt;
        regions
            .find(&key)
            .is_some_and(|found| !found.committed && found.id.place == 3)
    );
    let all = pattern(&rt, alloc, Term::Var(0))?;
    let one = pattern(&rt, alloc, Term::Int(1))?;
    let word = pattern(&rt, alloc, Term::Atom(named(&rt, alloc, b"a")?))?;
    assert_eq!(rt; regions.compatible(&word)?.len(), 1);
    assert!(rt; regions.len() == 1);
    assert!(rt; regions.count(0) == 1);
    assert!(rt; regions.item(0, 0).key.len() >= 60);
    regions.cut(0, 0, 60)?;
    assert_eq!(rt; regions.compatible(&all)?.len(), 2);
    assert_eq!(rt; regions.compatible(&one)?.len(), 2);
    assert_eq!(rt; regions.compatible(&word)?.len(), 1);
    let own = regions.owner_of(&key);
    assert_eq!(rt; own, 1);
    assert!(rt; own < regions.len());
    assert!(rt; regions.count(own) == 1 && regions.prefix(own).len() == 60);
    assert!(rt; regions.parent_of(own) == Some(0));
    assert!(rt; merged(&mut regions, own));
    assert!(rt; regions.len() == 1);
    assert!(rt; regions.take(&key).is_some());
    assert!(rt; regions.find(&key).is_none());
    Ok(())
}

// The 8 bits of a number.
fn bits_of(alloc: Global, number: u8) -> Result<Bits, OutOfMemory> {
    Bits::from_bytes(alloc, &[number], 8)
}

// Whether no item's key begins a key or begins with it.
fn is_apart(regions: &Regions<SortedDir>, key: &Bits) -> bool
    ensures { IsTrue result → IsApart regions.now.regions key.now.bits }
{
    for i in 0..regions.len() {
        for j in 0..regions.count(i) {
            let other = &regions.item(i, j).key;
            if other.is_prefix_of(key) || key.is_prefix_of(other) {
                return false;
            }
        }
    }
    true
}

// Whether the region that owns a key has place for one more item.
fn has_place(regions: &Regions<SortedDir>, key: &Bits) -> bool
    ensures { IsTrue result → (i : ℕ) → IsOwner (region_prefixes regions.now.regions) key.now.bits i
        → length (items_at regions.now.regions i) < PAGE_ITEMS }
{
    let owner = regions.owner_of(key);
    if owner >= regions.len() {
        return false;
    }
    regions.count(owner) < PAGE_ITEMS
}

// Whether no region has a prefix.
fn is_new(regions: &Regions<SortedDir>, prefix: &Bits) -> bool
    ensures { IsTrue result → (m : ℕ) → m < length regions.now.regions →
        (region_at regions.now.regions m).prefix ≢ prefix.now.bits }
{
    for m in 0..regions.len() {
        if regions.prefix(m).cmp(prefix).is_eq() {
            return false;
        }
    }
    true
}

// Puts an item with the 8 bits of a number as its key into its region.
fn place_number(
    rt: &impl Abort,
    alloc: Global,
    regions: &mut Regions<SortedDir>,
    number: u8,
) -> Result<(), OutOfMemory> {
    let key = bits_of(alloc, number)?;
    assert!(rt; is_apart(regions, &key));
    assert!(rt; has_place(regions, &key));
    regions.place(Item {
        key,
        term: Term::Int(0),
        number: 0,
        committed: true,
        front: false,
        id: Id {
            place: 0,
            change: 0,
        },
    });
    Ok(())
}

// Cuts a region at the first `n` bits of the key of its first item.
fn cut_first(
    rt: &impl Abort,
    regions: &mut Regions<SortedDir>,
    i: usize,
    n: usize,
) -> Result<(), OutOfMemory> {
    assert!(rt; i < regions.len());
    assert!(rt; regions.count(i) > 0);
    assert!(rt; regions.prefix(i).len() < n);
    assert!(rt; n <= regions.item(i, 0).key.len());
    regions.cut(i, 0, n)
}

// Recuts a region at the first `n` bits of the key of item `j` of region `r`, which is the region
// itself or its parent.
fn recut_at(
    rt: &impl Abort,
    regions: &mut Regions<SortedDir>,
    i: usize,
    r: usize,
    j: usize,
    n: usize,
) -> Result<(), OutOfMemory> {
    regions.make_room(n)?;
    assert!(rt; i > 0);
    assert!(rt; i < regions.len());
    let Some(parent) = regions.parent_of(i) else {
        unreachable!()
    };
    assert!(rt; regions.count(parent) + regions.count(i) <= PAGE_ITEMS);
    assert!(rt; regions.prefix(parent).len() < n);
    assert!(rt; r == i || r == parent);
    assert!(rt; j < regions.count(r));
    let key = &regions.item(r, j).key;
    assert!(rt; n <= key.len());
    let prefix = key.prefix(n)?;
    assert!(rt; is_new(regions, &prefix));
    regions.recut(i, r, j, n);
    Ok(())
}

// Whether a region has the first bits of a number as its prefix, and the 8 bits of the numbers from
// one up to another as its keys, in their order.
fn has_numbers(
    alloc: Global,
    regions: &Regions<SortedDir>,
    i: usize,
    bits: usize,
    numbers: (u8, u8),
) -> Result<bool, OutOfMemory> {
    let (first, last) = numbers;
    if i >= regions.len() {
        return Ok(false);
    }
    let prefix = regions.prefix(i);
    if prefix.len() != bits || !prefix.is_prefix_of(&bits_of(alloc, first)?) {
        return Ok(false);
    }
    let items = regions.items(i);
    let mut j = 0;
    for number in first..=last {
        if j >= items.len() || items[j].key != bits_of(alloc, number)? {
            return Ok(false);
        }
        j += 1;
    }
    Ok(j == items.len())
}

// A region of 7 numbers and its parent of 19 are cut anew, once at an item of the parent and once
// at one of the region: their prefixes and items.
#[test]
fn a_thin_region_is_recut_with_its_parent(rt: HostRuntime) -> Result<(), Fail> {
    let alloc = rt.alloc();
    let mut regions = Regions::new(alloc, SortedDir::new(alloc)?)?;
    for number in 1..8 {
        place_number(&rt, alloc, &mut regions, number)?;
    }
    cut_first(&rt, &mut regions, 0, 5)?;
    for number in 8..27 {
        place_number(&rt, alloc, &mut regions, number)?;
    }
    assert!(rt; has_numbers(alloc, &regions, 0, 0, (8, 26))?);
    assert!(rt; has_numbers(alloc, &regions, 1, 5, (1, 7))?);
    recut_at(&rt, &mut regions, 1, 0, 8, 4)?;
    assert!(rt; has_numbers(alloc, &regions, 0, 0, (1, 15))?);
    assert!(rt; has_numbers(alloc, &regions, 1, 4, (16, 26))?);
    recut_at(&rt, &mut regions, 1, 1, 8, 5)?;
    assert!(rt; has_numbers(alloc, &regions, 0, 0, (1, 23))?);
    assert!(rt; has_numbers(alloc, &regions, 1, 5, (24, 26))?);
    assert_eq!(rt; regions.len(), 2);
    Ok(())
}

// The prefixes none, 0, 01, 011 and 10 in their order: the owner of a key, and the parent of each.
#[test]
fn the_longest_prefix_owns_a_key(rt: HostRuntime) -> Result<(), Fail> {
    let alloc = rt.alloc();
    let mut regions = Regions::new(alloc, SortedDir::new(alloc)?)?;
    place_number(&rt, alloc, &mut regions, 0b0110_0000)?;
    cut_first(&rt, &mut regions, 0, 1)?;
    cut_first(&rt, &mut regions, 1, 2)?;
    cut_first(&rt, &mut regions, 2, 3)?;
    place_number(&rt, alloc, &mut regions, 0b1000_0000)?;
    cut_first(&rt, &mut regions, 0, 2)?;
    assert_eq!(rt; regions.len(), 5);
    let owners = [
        (0b0111_0000, 8, 3),
        (0b0110_0000, 3, 3),
        (0b0100_0000, 4, 2),
        (0b0101_1111, 8, 2),
        (0b0100_0000, 2, 2),
        (0b0011_1111, 8, 1),
        (0b0000_0000, 1, 1),
        (0b1011_0000, 4, 4),
        (0b1111_1111, 8, 0),
        (0b1000_0000, 1, 0),
        (0b0000_0000, 0, 0),
    ];
    for (number, bits, owner) in owners {
        let key = bits_of(alloc, number)?;
        assert!(rt; bits <= key.len());
        assert_eq!(rt; regions.owner_of(&key.prefix(bits)?), owner);
    }
    let parents = [None, Some(0), Some(1), Some(2), Some(0)];
    for (i, parent) in parents.iter().enumerate() {
        assert!(rt; i < regions.len());
        assert!(rt; regions.parent_of(i) == *parent);
    }
    Ok(())
}

// The longest prefix that begins a key, by its slot.
fn prefix_of_owner<'a>(dir: &'a SortedDir, key: &Bits) -> &'a Bits {
    dir.prefix_of(dir.owner(key))
}

// Whether a directory has fewer than 8 prefixes, and a list is none of them.
fn is_new_prefix(dir: &SortedDir, list: &Bits) -> bool
    ensures { IsTrue result → IsNewPrefix dir.now.entries list.now.bits }
{
    for i in 0..8 {
        let Some(prefix) = dir.prefix_at(i) else {
            return true;
        };
        if prefix.cmp(list).is_eq() {
            return false;
        }
    }
    false
}

// Puts the first `n` bits of a list in the place of a prefix, where that may be done.
fn renamed(dir: &mut SortedDir, i: usize, from: &Bits, n: usize) -> Result<bool, OutOfMemory> {
    dir.make_room(n)?;
    if i == 0 || n == 0 || n > from.len() {
        return Ok(false);
    }
    let Some(_) = dir.prefix_at(i) else {
        return Ok(false);
    };
    let new = from.prefix(n)?;
    if !is_new_prefix(dir, &new) {
        return Ok(false);
    }
    dir.rename(i, from, n);
    Ok(true)
}

// Takes out a prefix that is not the empty one.
fn dropped(dir: &mut SortedDir, i: usize) -> bool {
    if i == 0 {
        return false;
    }
    let Some(_) = dir.prefix_at(i) else {
        return false;
    };
    dir.drop_prefix(i);
    true
}

// A prefix gets other bits by its place, is found by its slot, and goes.
#[test]
fn a_prefix_is_renamed_and_goes(rt: HostRuntime) -> Result<(), Fail> {
    let alloc = rt.alloc();
    let mut dir = SortedDir::new(alloc)?;
    let first = Bits::from_bytes(alloc, &[0b0110_0000], 3)?;
    let second = Bits::from_bytes(alloc, &[0b1100_0000], 4)?;
    assert!(rt; !first.is_empty());
    dir.add(first, 5)?;
    assert!(rt; prefix_of_owner(&dir, &second).is_empty());
    assert!(rt; renamed(&mut dir, 1, &second, 2)?);
    let own = prefix_of_owner(&dir, &second);
    assert!(rt; own.len() == 2 && own.is_prefix_of(&second));
    assert!(rt; dir.owner(&second) == 5);
    assert!(rt; dropped(&mut dir, 1));
    assert!(rt; dir.owner(&second) == 0);
    assert!(rt; dir.prefix_at(1).is_none());
    Ok(())
}

// Items and regions may be sent to threads and shared by them.
#[test]
fn may_be_shared(rt: HostRuntime) -> Result<(), Fail> {
    let alloc = rt.alloc();
    shared(&item(&rt, alloc, 1)?);
    shared(&Regions::new(alloc, SortedDir::new(alloc)?)?);
    Ok(())
}

fn shared<T: Send + Sync>(_shared: &T) {}
