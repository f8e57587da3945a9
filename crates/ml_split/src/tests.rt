//! Splits of small lists of keys by the code.
ghost use Rattle.std.specs.Prelude.{ℕ, ◌<◌, IsTrue, length};
ghost use Rattle.std.specs.List.{All};
ghost use Rattle.ml_bits.specs.BitList.{Begins};
ghost use Rattle.ml_region.specs.Prefixes.{IsOwner};
ghost use Rattle.ml_region.specs.Regions.{IsApart, items_at, region_prefixes};
ghost use Rattle.ml_split.specs.RegionSplits.{IsNewTo};
ghost use Rattle.ml_split.specs.Splitting.{AreApart};

use crate::limits::MAX_SPLIT_KEYS;
use crate::place::split_place;
use crate::{Keys, split, split_prefix};
use ml_bits::{Bits, OutOfMemory};
use ml_region::{Directory, Id, Item, PAGE_ITEMS, Regions, SortedDir};
use ml_term::Term;
use std::alloc::Global;
use std::process::Abort;
use std::test::Fail;

// Keys that stand in a slice.
#[derive(Drop)]
struct Listed<'a> {
    keys: &'a [Bits],
}

impl Keys for Listed<'_> {
    ghost use Rattle.std.specs.Prelude.{map};
    ghost use Rattle.ml_bits.specs.BitList.{BitList};

    ghost keys = { λ listed. map (λ (key : BitList). key.bits) listed.keys.now };

    fn len(&self) -> usize {
        self.keys.len()
    }

    fn key(&self, i: usize) -> &Bits {
        &self.keys[i]
    }
}

// Whether no key begins another one.
fn are_apart<K: Keys>(keys: &K) -> bool
    ensures { IsTrue result → AreApart (K.keys keys.now) }
{
    for i in 0..keys.len() {
        for j in 0..keys.len() {
            if i != j && keys.key(i).is_prefix_of(keys.key(j)) {
                return false;
            }
        }
    }
    true
}

// Whether all keys begin with a prefix.
fn all_begin<K: Keys>(keys: &K, prefix: &Bits) -> bool
    ensures { IsTrue result → All (Begins prefix.now.bits) (K.keys keys.now) }
{
    for i in 0..keys.len() {
        if !prefix.is_prefix_of(keys.key(i)) {
            return false;
        }
    }
    true
}

// The code of a small number.
fn code_of(alloc: Global, number: u8) -> Result<Bits, OutOfMemory> {
    let code = 0x6000_0000_0000_0000 + u64::from(number);
    Bits::from_bytes(alloc, &code.to_be_bytes(), 64)
}

// The codes of the numbers from each first one up to the one before each second one.
fn codes_of(alloc: Global, ranges: &[(u8, u8)]) -> Result<Vec<Bits>, OutOfMemory> {
    let mut keys = Vec::new(alloc);
    for (first, end) in ranges {
        for number in *first..*end {
            keys.push(code_of(alloc, number)?)?;
        }
    }
    Ok(keys)
}

// The numbers of the worked rows: how long the new prefix is, and a number whose code begins with
// it.
#[test]
fn splits_codes_of_numbers(rt: HostRuntime) -> Result<(), Fail> {
    let alloc = rt.alloc();
    let first = codes_of(alloc, &[(0, 25)])?;
    let second = codes_of(alloc, &[(16, 25), (32, 48)])?;
    let merged = codes_of(alloc, &[(9, 25), (32, 47)])?;
    let table = [(&first, 60, 0), (&second, 59, 32), (&merged, 59, 9)];
    let prefix = Bits::from_bytes(alloc, &[0b0110_0000], 3)?;
    for (keys, bits, member) in table {
        let listed = Listed { keys };
        assert!(rt; listed.len() > 1 && listed.len() <= MAX_SPLIT_KEYS);
        assert!(rt; are_apart(&listed) && all_begin(&listed, &prefix));
        let place = split_place(&listed, &prefix);
        assert_eq!(rt; place.bits, bits);
        let key = listed.key(place.key);
        assert!(rt;
            key.common_len(&code_of(alloc, member)?) >= bits,
            "{member}"
        );
    }
    Ok(())
}

// Whether no item's key begins a key or begins with it.
fn is_apart<D: Directory>(regions: &Regions<D>, key: &Bits) -> bool
    ensures { IsTrue result → IsApart regions.now.regions key.now.bits }
{
    for i in 0..regions.len() {
        for j in 0..regions.count(i) {
            let other = &regions.item(i, j).key;
            if other.is_prefix_of(key) || key.is_prefix_of(other) {
                return false;
            }
        }
    }
    true
}

// Whether the region that owns a key has place for one more item.
fn has_place<D: Directory>(regions: &Regions<D>, key: &Bits) -> bool
    ensures { IsTrue result → (i : ℕ) →
        IsOwner (region_prefixes regions.now.regions) key.now.bits i →
        length (items_at regions.now.regions i) < PAGE_ITEMS }
{
    let owner = regions.owner_of(key);
    if owner >= regions.len() {
        return false;
    }
    regions.count(owner) < PAGE_ITEMS
}

// Whether a region would take in a key.
fn takes_in<D: Directory>(regions: &Regions<D>, i: usize, key: &Bits) -> bool
    ensures { IsTrue result → IsNewTo regions.now.regions i key.now.bits }
{
    if !is_apart(regions, key) {
        return false;
    }
    regions.owner_of(key) == i
}

// Puts an item with a key into its region.
fn place(rt: &impl Abort, regions: &mut Regions<SortedDir>, key: Bits) {
    assert!(rt; is_apart(regions, &key));
    assert!(rt; has_place(regions, &key));
    regions.place(Item {
        key,
        term: Term::Int(0),
        number: 0,
        committed: true,
        front: false,
        id: Id {
            place: 0,
            change: 0,
        },
    });
}

// The prefix at which the region of the empty prefix, of 24 items, is split with a further key.
fn prefix_with(
    rt: &impl Abort,
    regions: &Regions<SortedDir>,
    further: &Bits,
) -> Result<Bits, OutOfMemory> {
    assert!(rt; regions.len() > 0);
    assert!(rt; regions.count(0) == 24);
    assert!(rt; takes_in(regions, 0, further));
    split_prefix(regions, 0, Some(further))
}

// The numbers from 0 to 23 with 24 as a further key: the prefix of the worked row.
#[test]
fn splits_a_region_with_a_further_key(rt: HostRuntime) -> Result<(), Fail> {
    let alloc = rt.alloc();
    let mut regions = Regions::new(alloc, SortedDir::new(alloc)?)?;
    for number in 0..24 {
        place(&rt, &mut regions, code_of(alloc, number)?);
    }
    let further = code_of(alloc, 24)?;
    let prefix = prefix_with(&rt, &regions, &further)?;
    assert_eq!(rt; prefix.len(), 60);
    assert!(rt; prefix.is_prefix_of(&code_of(alloc, 15)?));
    Ok(())
}

// Splits the region of the empty prefix.
fn split_root(rt: &impl Abort, regions: &mut Regions<SortedDir>) -> Result<Bits, OutOfMemory> {
    assert!(rt; regions.len() > 0);
    assert!(rt; regions.count(0) > 24);
    split(regions, 0)
}

// How many items each region has.
fn counts(alloc: Global, regions: &Regions<SortedDir>) -> Result<Vec<usize>, OutOfMemory> {
    let mut found = Vec::new(alloc);
    for i in 0..regions.len() {
        found.push(regions.count(i))?;
    }
    Ok(found)
}

// The numbers from 0 to 24, and then those from 32 to 47: the regions of the worked rows.
#[test]
fn splits_regions(rt: HostRuntime) -> Result<(), Fail> {
    let alloc = rt.alloc();
    let mut regions = Regions::new(alloc, SortedDir::new(alloc)?)?;
    for number in 0..25 {
        place(&rt, &mut regions, code_of(alloc, number)?);
    }
    let first = split_root(&rt, &mut regions)?;
    assert_eq!(rt; first.len(), 60);
    assert!(rt; first.is_prefix_of(&code_of(alloc, 15)?));
    assert_eq!(rt; counts(alloc, &regions)?.as_slice(), [9, 16].as_slice());
    for number in 32..48 {
        place(&rt, &mut regions, code_of(alloc, number)?);
    }
    let second = split_root(&rt, &mut regions)?;
    assert_eq!(rt; second.len(), 59);
    assert!(rt; second.is_prefix_of(&code_of(alloc, 47)?));
    assert_eq!(rt; counts(alloc, &regions)?.as_slice(), [9, 16, 16].as_slice());
    Ok(())
}
