//! The files of a store, and how they are loaded.
ghost use Rattle.std.specs.Prelude.{◌≡◌, ◌≢◌, ◌^◌, ◌<◌, length, map, IfOk, IsTrue, OnOk};
ghost use Rattle.std.specs.List.{All};
ghost use Rattle.ml_file.specs.Files.{items_in};
ghost use Rattle.ml_file.specs.Inserting.{IsInserted};
ghost use Rattle.ml_file.specs.Stores.{HaveTaken, IsLoaded, empty_file};
ghost use Rattle.ml_file.specs.declared.file.put.Put.{Put};
ghost use Rattle.ml_region.specs.declared.item.Item.{Item};
ghost use Rattle.ml_search.specs.Db.{is_allowed};
ghost use Rattle.ml_search.specs.ItemsSeen.{items_seen};
ghost use Rattle.ml_search.specs.Loading.{are_items};
ghost use Rattle.ml_term.specs.Seen.{seen};

use crate::OutOfMemory;
use crate::file::BangFile;
use ml_search::Decls;
use ml_term::{Kind, Term};
use std::alloc::Global;

/// The files of a store, one for each declaration, in their order.
#[derive(Drop)]
pub struct Store {
    pub files: Vec<BangFile>,
}

impl Store {
    /// The store with which a history begins: each item, which is its declaration's place, from 0,
    /// and its term, is put into its file, one after another. A tuple that is given twice is there
    /// once. A clause's storage number and its change are its place in its list. Every item is
    /// committed, not front and has place 0, and no region is thin.
    pub fn from_items(
        alloc: Global,
        decls: &Decls,
        items: Vec<(u32, Term)>,
    ) -> Result<Store, OutOfMemory>
        requires items { IsTrue (are_items decls.now (items_seen items.items)) }
        requires few { length items.items < 2 ^ 32 }
        ensures { IfOk result (λ store.
            IsLoaded decls.now (items_seen items.items) store.files.items) }
    {
        let mut files = fill_files(alloc, decls, items)?;
        for file in files.iter_mut() {
            file.settle_all();
        }
        Ok(Store { files })
    }
}

// A file without items for each declaration.
fn empty_files(alloc: Global, decls: &Decls) -> Result<Vec<BangFile>, OutOfMemory>
    ensures { IfOk result (λ files. files.items ≡ map empty_file decls.now) }
{
    let mut files = Vec::new(alloc);
    for i in 0..decls.len() {
        files.push(BangFile::new(alloc, decls.at(i).copy_of(alloc)?)?)?;
    }
    Ok(files)
}

// Puts a term into a file. Its storage number is how many inserts added an item before.
fn load(file: &mut BangFile, t: Term) -> Result<(), OutOfMemory>
    requires allowed { IsTrue (is_allowed file.old.decl (seen t)) }
    requires fresh { file.old.decl.kind ≡ Kind.Clauses →
        All (λ (x : Item). x.number ≢ file.old.added) (items_in file.old.regions) }
    ensures inserted { OnOk result ((put : Put)
        × IsInserted put file.old t file.old.added file.new) }
    ensures decl { file.new.decl ≡ file.old.decl }
{
    let number = u64::from(file.added);
    let _put = file.insert(t, number)?;
    Ok(())
}

// The files of the declarations, into which the items were put one after another.
fn fill_files(
    alloc: Global,
    decls: &Decls,
    items: Vec<(u32, Term)>,
) -> Result<Vec<BangFile>, OutOfMemory>
    requires items { IsTrue (are_items decls.now (items_seen items.items)) }
    requires few { length items.items < 2 ^ 32 }
    ensures { IfOk result (λ files. HaveTaken decls.now (items_seen items.items) files.items) }
{
    let mut files = empty_files(alloc, decls)?;
    for (place, term) in items {
        load(&mut files[place as usize], term)?;
    }
    Ok(files)
}
