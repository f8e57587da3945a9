//! Links to what stands behind an instruction.
ghost use Rattle.std.specs.Prelude.{◌≡◌, ℕ, List, IfOk, OnErr, OnOk};
ghost use Rattle.ml_asking.specs.Asking.{Member};
ghost use Rattle.ml_search.specs.Actions.{Continuation};
ghost use Rattle.ml_stack.specs.Memories.{CompiledProcedure};
ghost use Rattle.ml_stack.specs.Stands.{Continues, Runs, View};
ghost use Rattle.ml_machine.specs.Instructions.{block_at, EndsBehind, further};
ghost use Rattle.ml_machine.specs.MoreFrames.{HasMoreFrames};

use ml_stack::{At, Frame, FrameLink, Memory};
use std::alloc::AllocError;

/// A place further on in the same block. Want of memory is the answer past 2^64.
pub(crate) fn place_behind(at: At, by: usize) -> Result<At, AllocError>
    ensures { IfOk result (λ a. a ≡ further at by) }
{
    let Some(place) = at.place.checked_add(by) else {
        return Err(AllocError);
    };
    Ok(At {
        code: at.code,
        place,
        env: at.env,
        height: at.height,
        next: at.next,
    })
}

/// The beginning of another block of the same code, with its height, and where it goes on. Want of
/// memory is the answer past 2^64.
pub(crate) fn block_behind(
    at: At,
    by: usize,
    height: usize,
    next: FrameLink,
) -> Result<At, AllocError>
    ensures { IfOk result (λ a. a ≡ block_at at by height next) }
{
    let Some(place) = at.place.checked_add(by) else {
        return Err(AllocError);
    };
    Ok(At {
        code: at.code,
        place,
        env: at.env,
        height,
        next,
    })
}

/// The link to the rest of a block, so many places on: no frame is pushed where the block ends
/// there. After a refusal memory is as it was.
pub(crate) fn link_behind(
    memory: &mut Memory,
    at: At,
    by: usize,
    ends: bool,
) -> Result<FrameLink, AllocError>
    ensures goes_on { IfOk result (λ link. (ps : List CompiledProcedure) (w : View) (n : ℕ)
        (gs : Continuation Member) → EndsBehind ps memory.old at by ends →
        Runs ps memory.old w n (further at by) gs → Continues ps memory.new w n link gs) }
    ensures frames { OnOk result (HasMoreFrames memory.old memory.new) }
    ensures stays { OnErr result (memory.new ≡ memory.old) }
{
    if ends {
        return Ok(at.next);
    }
    let rest = place_behind(at, by)?;
    let link = memory.push_frame(Frame::Body(rest))?;
    Ok(link)
}
