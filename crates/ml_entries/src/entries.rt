//! The entries of a run, as they are printed.
ghost use Rattle.std.specs.Prelude.{◌≡◌, ◌<◌, ◌^◌, suc, IfOk, IsTrue, length, map};
ghost use Rattle.ml_entries.specs.Entries.{contents, AreEntries, AreLists, IsEntry};
ghost use Rattle.ml_list_desk.specs.Items.{lists_seen};
ghost use Rattle.ml_program.specs.LoadedProgram.{program_of};
ghost use Rattle.ml_search.specs.Db.{Db};
ghost use Rattle.ml_search.specs.ItemsSeen.{items_seen};
ghost use Rattle.ml_search.specs.Loading.{are_items, first_db};
ghost use Rattle.ml_search.specs.ProgramSeen.{program_seen, script_seen};

use crate::items::first_items;
use crate::line_bytes::line_bytes;
use crate::session::session_block;
use ml_list_desk::ListItems;
use ml_program::Loaded;
use ml_search::{Decls, EntryEnding, Program, Script};
use ml_term::Term;
use std::alloc::{AllocError, Global};

/// The blocks of the entries of scripts, in order of number from 1: each session runs over what the
/// one before it left, and the first over the first lists of a program's items, each of which has
/// its declaration's place. A session that finds no memory is an entry out of memory, and leaves
/// the lists as they were.
pub fn blocks_of(
    alloc: Global,
    program: &Program,
    items: Vec<(u32, Term)>,
    scripts: &[Script],
) -> Result<Vec<Vec<u8>>, AllocError>
    requires items { IsTrue (are_items program.now.decls (items_seen items.items)) }
    requires few { length scripts.now < 2 ^ 32 }
    ensures { IfOk result (λ blocks. (after : Db) × AreEntries (program_seen program.now)
        (first_db program.now.decls (items_seen items.items)) (map script_seen scripts.now)
        (length scripts.now) (contents blocks.items) after) }
{
    let loaded = Loaded::new(alloc, program)?;
    let first = first_items(alloc, &program.decls, items)?;
    let blocks = blocks_in_turn(alloc, &loaded, &program.decls, first, scripts)?;
    Ok(blocks)
}

// The same over first lists.
fn blocks_in_turn(
    alloc: Global,
    program: &Loaded,
    decls: &Decls,
    first: Vec<ListItems>,
    scripts: &[Script],
) -> Result<Vec<Vec<u8>>, AllocError>
    requires few { length scripts.now < 2 ^ 32 }
    requires declared { decls.now ≡ (program_of program.now).decls }
    requires lists { AreLists decls.now 1 (lists_seen first.items) }
    ensures { IfOk result (λ blocks. (after : Db) × AreEntries (program_of program.now)
        (lists_seen first.items) (map script_seen scripts.now) (length scripts.now)
        (contents blocks.items) after) }
{
    let mut items = first;
    let mut blocks = Vec::new(alloc);
    for i in 0..scripts.len() {
        let block = entry_block(alloc, program, decls, &scripts[i], i as u32 + 1, &mut items)?;
        blocks.push(block)?;
    }
    Ok(blocks)
}

// The block of a script's entry, where the items become those that it leaves.
fn entry_block(
    alloc: Global,
    program: &Loaded,
    decls: &Decls,
    script: &Script,
    number: u32,
    items: &mut Vec<ListItems>,
) -> Result<Vec<u8>, AllocError>
    requires declared { decls.now ≡ (program_of program.now).decls }
    requires lists { AreLists decls.now number (lists_seen items.old.items) }
    ensures entry { IfOk result (λ bytes. IsEntry (program_of program.now)
        (lists_seen items.old.items) (script_seen script.now) number bytes.items
        (lists_seen items.new.items)) }
    ensures lists { AreLists decls.now (suc number) (lists_seen items.new.items) }
{
    match session_block(alloc, program, decls, script, number, items) {
        Ok(block) => Ok(block),
        Err(_) => line_bytes(alloc, number, EntryEnding::OutOfMemory),
    }
}
