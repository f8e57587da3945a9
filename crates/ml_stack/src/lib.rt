//! The stacks of the machine: what it keeps beside its heap, and what that stands for in the search
//! that asks. It stands on ml_asking, ml_heap and ml_compile. The layer above may use memory and
//! its moments, frames, choice points and levels, whose contracts say what they stand for. A
//! continuation is a link into the frames; a choice point is a moment of memory and what is left
//! there; a level is a search that waits for the one inside its `findall/3`. Memory only grows
//! until it goes back to a moment, so each choice point is read in the memory of its moment.
#![tactic(auto)]

mod choice;
mod choices;
mod frame;
pub mod laws;
mod level;
mod levels;
mod memory;
mod moment;
#[cfg(test)]
mod tests;

pub use choice::{Choice, How, Left};
pub use choices::{cut_choices, push_choice, take_choice};
pub use frame::{At, CodeName, Frame, FrameLink};
pub use level::{FindallCall, FindallEnd, Level, Stacks};
pub use levels::{put_aside, take_back};
pub use memory::Memory;
pub use moment::Moment;
