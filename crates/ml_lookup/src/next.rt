//! The next item that a pattern meets.
ghost use Rattle.std.specs.Prelude.{◌≡◌, ◌<◌, ◌++◌, ◌↔◌, IfOk, IsTrue, List, length, MatchOption};
ghost use Rattle.std.specs.Prelude.{Option, Some};
ghost use Rattle.std.specs.Option.{option_copied};
ghost use Rattle.std.specs.declared.cmp.Ordering.TheVariants.{Less};
ghost use Rattle.ml_bits.specs.BitList.{BitList};
ghost use Rattle.ml_file.specs.Files.{items_in};
ghost use Rattle.ml_lookup.specs.Next.{IsBehind, IsMet, IsNextIn};
ghost use Rattle.ml_lookup.specs.inside.Walks.{HasAbove, HasBefore};
ghost use Rattle.ml_region.specs.Regions.{items_at};
ghost use Rattle.ml_region.specs.declared.item.Item.{Item};
ghost use Rattle.ml_search.specs.Db.{is_allowed};
ghost use Rattle.ml_search.specs.Program.{is_of};
ghost use Rattle.ml_term.specs.Keys.{key_cmp};
ghost use Rattle.ml_term.specs.Seen.{seen};
ghost use Rattle.ml_term.specs.Tree.{Tree};
ghost use Rattle.ml_term.specs.Valid.{is_valid};
ghost use Rattle.ml_term.specs.declared.declaration.Kind.{Kind};

use ml_bits::{Bits, OutOfMemory};
use ml_file::BangFile;
use ml_key::{may_hold, pattern_of};
use ml_region::Item;
use ml_term::Term;

// Whether a key comes behind another one, if one is given.
fn is_behind(after: Option<&Bits>, key: &Bits) -> bool
    ensures { IsTrue result ↔ IsBehind (option_copied after.entry) key.now.bits }
{
    match after {
        Some(other) => other.cmp(key).is_lt(),
        None => true,
    }
}

// Whether a pattern meets an item, which comes behind a key.
fn is_met(
    file: &BangFile,
    head: &Term,
    after: Option<&Bits>,
    item: &Item,
) -> Result<bool, OutOfMemory>
    requires head { IsTrue (is_valid (seen head.now)) }
    requires item { IsTrue (is_allowed file.now.decl (seen item.now.term)) }
    ensures { IfOk result (λ is. IsTrue is
        ↔ IsMet file.now.decl.kind (seen head.now) (option_copied after.entry) item.now) }
{
    if !is_behind(after, &item.key) {
        return Ok(false);
    }
    file.meets(head, item)
}

// The first item of a region that a pattern meets behind a key.
fn first_in<'a>(
    file: &'a BangFile,
    head: &Term,
    after: Option<&Bits>,
    i: usize,
) -> Result<Option<&'a Item>, OutOfMemory>
    requires head { IsTrue (is_valid (seen head.now)) }
    requires region { i < length file.now.regions }
    ensures { IfOk result (λ found. IsNextIn file.now.decl.kind (seen head.now)
        (option_copied after.entry) (items_at file.now.regions i) found) }
{
    let _kept = file.len();
    let regions = file.regions();
    for item in regions.items(i) {
        let met = is_met(file, head, after, item)?;
        if met {
            return Ok(Some(item));
        }
    }
    Ok(None)
}

// Whether an item was found that comes before a prefix.
fn comes_before(found: Option<&Item>, prefix: &Bits) -> bool
    ensures { IsTrue result ↔ MatchOption found.entry ⊥
        (λ item. key_cmp item.now.key.bits prefix.now.bits ≡ Less) }
{
    match found {
        Some(item) => item.key.cmp(prefix).is_lt(),
        None => false,
    }
}

// The one of two items that comes first.
fn nearer<'a>(first: Option<&'a Item>, second: Option<&'a Item>) -> Option<&'a Item>
    ensures { (kind : Kind) (pattern : Tree) (after : Option BitList) (items others : List Item) →
        IsNextIn kind pattern after items first.entry →
        IsNextIn kind pattern after others second.entry →
        IsNextIn kind pattern after (items ++ others) result }
{
    let Some(one) = first else {
        return second;
    };
    if comes_before(second, &one.key) {
        return second;
    }
    first
}

// The nearer one of an item that was found and of the first one of a region.
fn nearer_in<'a>(
    file: &'a BangFile,
    head: &Term,
    after: Option<&Bits>,
    i: usize,
    best: Option<&'a Item>,
) -> Result<Option<&'a Item>, OutOfMemory>
    requires head { IsTrue (is_valid (seen head.now)) }
    requires region { i < length file.now.regions }
    ensures { IfOk result (λ found. (items : List Item) →
        IsNextIn file.now.decl.kind (seen head.now) (option_copied after.entry) items best.entry →
        IsNextIn file.now.decl.kind (seen head.now) (option_copied after.entry)
        (items ++ items_at file.now.regions i) found) }
{
    let found = first_in(file, head, after, i)?;
    Ok(nearer(best, found))
}

// The first item behind a key that a pattern meets in the key's home, its parent, and so on.
fn next_above<'a>(
    file: &'a BangFile,
    head: &Term,
    after: &Bits,
) -> Result<Option<&'a Item>, OutOfMemory>
    requires { IsTrue (is_valid (seen head.now)) }
    ensures { IfOk result (λ found. (items : List Item) ×
        (IsNextIn file.now.decl.kind (seen head.now) (Some after.now) items found
        × HasAbove file.now.regions after.now.bits items)) }
{
    let regions = file.regions();
    let _well_placed = regions.len();
    let mut best = None;
    let mut i = regions.owner_of(after);
    'above: loop {
        best = nearer_in(file, head, Some(after), i, best)?;
        let Some(parent) = regions.parent_of(i) else {
            return Ok(best);
        };
        i = parent;
    }
}

// The first item behind a key that a pattern meets, where one was found in front of a region. No
// item of a region comes before its prefix.
fn next_from<'a>(
    file: &'a BangFile,
    head: &Term,
    after: Option<&Bits>,
    from: usize,
    found: Option<&'a Item>,
) -> Result<Option<&'a Item>, OutOfMemory>
    requires declared { IsTrue (is_of file.now.decl.pred.name file.now.decl.pred.arity
        (seen head.now)) }
    requires valid { IsTrue (is_valid (seen head.now)) }
    ensures { IfOk result (λ next. (items : List Item) →
        IsNextIn file.now.decl.kind (seen head.now) (option_copied after.entry) items found.entry →
        HasBefore file.now.decl.kind (seen head.now) (option_copied after.entry) file.now.regions
        from items →
        IsNextIn file.now.decl.kind (seen head.now) (option_copied after.entry)
        (items_in file.now.regions) next) }
{
    let _kept = file.len();
    let regions = file.regions();
    let pattern = pattern_of(file.decl(), head);
    let mut best = found;
    let mut i = from;
    'each: while i < regions.len() {
        let prefix = regions.prefix(i);
        if comes_before(best, prefix) {
            return Ok(best);
        }
        if may_hold(&pattern, prefix) {
            best = nearer_in(file, head, after, i, best)?;
            i += 1;
        } else {
            i = regions.end_of_below(i);
        }
    }
    Ok(best)
}

/// The first item that a pattern meets, or the first one behind a key if one is given, in the order
/// of keys, which for a relation is the order of its items. There is none exactly where none is
/// met. The pattern is of the declared predicate. It looks at the key's home and the regions that
/// enclose it, and then at those behind that may hold such an item, up to the one found.
pub fn next_after<'a>(
    file: &'a BangFile,
    head: &Term,
    after: Option<&Bits>,
) -> Result<Option<&'a Item>, OutOfMemory>
    requires declared { IsTrue (is_of file.now.decl.pred.name file.now.decl.pred.arity
        (seen head.now)) }
    requires valid { IsTrue (is_valid (seen head.now)) }
    ensures { IfOk result (λ found. IsNextIn file.now.decl.kind (seen head.now)
        (option_copied after.entry) (items_in file.now.regions) found) }
{
    let Some(key) = after else {
        return next_from(file, head, None, 0, None);
    };
    let best = next_above(file, head, key)?;
    let regions = file.regions();
    let _well_placed = regions.len();
    let from = regions.last_not_after(key) + 1;
    next_from(file, head, Some(key), from, best)
}
