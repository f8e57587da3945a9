//! Runs the sessions, and prints them.
ghost use Rattle.std.specs.Prelude.{◌≡◌, ◌≤◌, ℕ, List, IfErr, OnOk};
ghost use Rattle.std.specs.List.{flat_map};
ghost use Rattle.ml_outside.specs.Written.{Appended, AppendedFront};
ghost use Rattle.ml_run.specs.inside.StepCauses.{WriteStops};
ghost use Rattle.ml_entries.specs.Entries.{contents};
ghost use Rattle.ml_run.specs.inside.RunAndPrint.{PrintsInputs, PrintStops};

use crate::inputs::Inputs;
use crate::status::Status;
use ml_entries::blocks_of;
use ml_outside::{Sink, WriteStop};
use ml_reader::Rules;
use std::alloc::Global;

/// Runs the sessions in order of number, and then prints each by one write.
pub fn run_and_print<K: Sink>(alloc: Global, inputs: Inputs, out: &mut K) -> Result<(), Status>
    ensures ok { OnOk result
        (PrintsInputs inputs (Appended (K.written out.old) (K.written out.new))) }
    ensures err { IfErr result
        (λ status. PrintStops inputs (K.faults out.old) (K.faults out.new) (K.written out.old)
        (K.written out.new) status) }
{
    let Inputs { rules, scripts } = inputs;
    let Rules { program, items } = rules;
    let blocks = blocks_of(alloc, &program, items.into_vec(), &scripts)?;
    write_blocks(alloc, out, &blocks)
}

// Writes blocks, each by one write.
fn write_blocks<K: Sink>(alloc: Global, out: &mut K, blocks: &[Vec<u8>]) -> Result<(), Status>
    ensures ok { OnOk result
        (Appended (K.written out.old) (K.written out.new)
        (flat_map (λ b. b) (contents blocks.now))) }
    ensures front { IfErr result
        (λ _. AppendedFront (K.written out.old) (K.written out.new)
        (flat_map (λ b. b) (contents blocks.now))) }
    ensures err { IfErr result (λ status. WriteStops (K.faults out.old) (K.faults out.new) status) }
{
    for block in blocks {
        write_block(alloc, out, block)?;
    }
    Ok(())
}

fn write_block<K: Sink>(alloc: Global, out: &mut K, block: &[u8]) -> Result<(), Status>
    ensures ok { OnOk result (Appended (K.written out.old) (K.written out.new) block.now) }
    ensures front { IfErr result
        (λ _. AppendedFront (K.written out.old) (K.written out.new) block.now) }
    ensures err { IfErr result (λ status. WriteStops (K.faults out.old) (K.faults out.new) status) }
    ensures later { K.faults out.old ≤ K.faults out.new }
{
    match out.write_all(alloc, block) {
        Ok(()) => Ok(()),
        Err(WriteStop::Failed) => Err(Status::WriteFailed),
        Err(WriteStop::OutOfMemory) => Err(Status::OutOfMemory),
    }
}
