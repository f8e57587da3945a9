//! An item comes to a file.
ghost use Rattle.std.specs.Prelude.{◌≡◌, ◌≤◌, IfOk, OnErr, OnOk};
ghost use Rattle.ml_file.specs.Adding.{HasGrown, IsPutAs, MayCome};
ghost use Rattle.ml_file.specs.Files.{items_in};
ghost use Rattle.ml_file.specs.PlainList.{IsWith};
ghost use Rattle.ml_file.specs.Settled.{MakesNoneThin};
ghost use Rattle.ml_region.specs.Limits.{max_region_items};
ghost use Rattle.ml_region.specs.Regions.{AreWithin, IsApart};

use crate::OutOfMemory;
use crate::file::BangFile;
use ml_region::{Directory, Item, Regions};
use ml_split::{MAX_REGION_ITEMS, split_for};
use ml_term::Kind;

/// What a file did with an item that came.
#[derive(Clone, Copy, Debug, PartialEq, Eq)]
pub enum Put {
    /// The file has the item.
    Added,
    /// An item had its key already, and stays.
    Present,
}

// Puts an item into the region that owns its key, which is split first if it is full. After an
// error the regions are as they were.
fn grow<D: Directory>(regions: &mut Regions<D>, item: Item) -> Result<(), OutOfMemory>
    requires apart { IsApart regions.old.regions item.key.bits }
    requires few { AreWithin max_region_items regions.old.regions }
    ensures grown { OnOk result (HasGrown regions.old.regions item regions.new.regions) }
    ensures more { OnOk result (IsWith (items_in regions.old.regions) item
        (items_in regions.new.regions)) }
    ensures few { OnOk result (AreWithin max_region_items regions.new.regions) }
    ensures thin { OnOk result (MakesNoneThin regions.old.regions regions.new.regions) }
    ensures err { OnErr result (regions.new.regions ≡ regions.old.regions) }
    ensures room { regions.new.room ≡ regions.old.room }
{
    let _well_placed = regions.len();
    let owner = regions.owner_of(&item.key);
    if regions.count(owner) < MAX_REGION_ITEMS {
        regions.place(item);
        return Ok(());
    }
    split_for(regions, owner, &item.key)?;
    let _well_placed = regions.len();
    regions.place(item);
    Ok(())
}

impl BangFile {
    /// Puts an item into the file, if no item has its key. Where its region has 24 items, it is
    /// first split. No region is made thin. The answer `Present` comes for tuples alone, since a
    /// clause's number is its own, and then nothing changes. After an error only the room of
    /// prefixes may have grown.
    pub fn put(&mut self, item: Item) -> Result<Put, OutOfMemory>
        requires { MayCome self.old.decl self.old.regions item }
        ensures ok { IfOk result (λ put. IsPutAs put self.old.regions item self.new.regions) }
        ensures clauses { self.old.decl.kind ≡ Kind.Clauses → IfOk result (λ put. put ≡ Put.Added) }
        ensures present { IfOk result (λ put. put ≡ Put.Present → self.new ≡ self.old) }
        ensures thin { MakesNoneThin self.old.regions self.new.regions }
        ensures err { OnErr result (self.new.regions ≡ self.old.regions) }
        ensures decl { self.new.decl ≡ self.old.decl }
        ensures added { self.new.added ≡ self.old.added }
        ensures room { self.old.room ≤ self.new.room }
    {
        let _fits = item.number;
        if let Some(_held) = self.regions.find(&item.key) {
            return Ok(Put::Present);
        }
        self.regions.make_room(item.key.len())?;
        grow(&mut self.regions, item)?;
        Ok(Put::Added)
    }
}
