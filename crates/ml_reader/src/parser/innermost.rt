//! What the innermost frames ask of the operand that is wanted.
ghost use Rattle.std.specs.Prelude.{◌≡◌, []};
ghost use Rattle.ml_reader.specs.inside.parser.Parser.{root, ◌▹◌, commas, limit};
ghost use Rattle.ml_reader.specs.inside.parser.Frames.{bracket_seen, stack};
ghost use Rattle.ml_reader.specs.inside.parser.LimitedSteps.{depth, frames_left};

use crate::parser::frames::{Bracket, Frame};
use crate::parser::operators::{MAX_ARGUMENT_PRIORITY, MAX_PRIORITY};

fn commas_in(bracket: &Bracket) -> bool
    ensures { result ≡ commas (bracket_seen bracket.now ▹ root []) }
{
    match bracket {
        Bracket::Parens => true,
        Bracket::Braces => true,
        Bracket::Arguments(_) => false,
        Bracket::ListElements(_) => false,
        Bracket::ListTail(_) => false,
    }
}

fn limit_in(bracket: &Bracket) -> u16
    ensures { result ≡ limit (bracket_seen bracket.now ▹ root []) }
{
    match bracket {
        Bracket::Parens => MAX_PRIORITY,
        Bracket::Braces => MAX_PRIORITY,
        Bracket::Arguments(_) => MAX_ARGUMENT_PRIORITY,
        Bracket::ListElements(_) => MAX_ARGUMENT_PRIORITY,
        Bracket::ListTail(_) => MAX_ARGUMENT_PRIORITY,
    }
}

/// Whether commas are operators in the innermost bracket.
pub fn commas(frames: &[Frame]) -> bool
    ensures { result ≡ commas (stack frames.now) }
{
    let mut rest = frames;
    loop {
        match rest.split_last() {
            None => return true,
            Some((Frame::Open(bracket), _)) => return commas_in(bracket),
            Some((Frame::Prefix(_, _), below)) => rest = below,
            Some((Frame::Infix(_, _, _), below)) => rest = below,
        }
    }
}

/// The greatest priority of the operand that is wanted.
pub fn limit(frames: &[Frame]) -> u16
    ensures { result ≡ limit (stack frames.now) }
{
    match frames.split_last() {
        None => MAX_PRIORITY,
        Some((Frame::Prefix(_, s), _)) => s.right,
        Some((Frame::Infix(_, s, _), _)) => s.right,
        Some((Frame::Open(bracket), _)) => limit_in(bracket),
    }
}

/// How many levels an infix operator of this priority leaves open: it ends the operators before it
/// whose right operands may not have this priority, up to the innermost bracket.
pub fn levels_left(frames: &[Frame], priority: u16) -> usize
    ensures { result ≡ depth (frames_left priority (stack frames.now)) }
{
    let mut rest = frames;
    loop {
        match rest.split_last() {
            None => return 0,
            Some((Frame::Open(_), _)) => return rest.len(),
            Some((Frame::Prefix(_, s), below)) => {
                if priority <= s.right {
                    return rest.len();
                }
                rest = below;
            }
            Some((Frame::Infix(_, s, _), below)) => {
                if priority <= s.right {
                    return rest.len();
                }
                rest = below;
            }
        }
    }
}
