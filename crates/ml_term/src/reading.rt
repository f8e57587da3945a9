//! A term from its canonical bytes, or the first defect of bytes that are none.
ghost use Rattle.std.specs.Prelude.{◌≡◌, ◌+◌, ◌*◌, ◌^◌, ◌<◌, ◌≤◌, ◌∷◌, ◌++◌, ℕ, Some, IsTrue, IfOk};
ghost use Rattle.std.specs.Prelude.{IfErr, MatchResult, length, drop, take};
ghost use Rattle.std.specs.Int.{to_be_bytes, w32, w64};
ghost use Rattle.std.specs.List.{prefix_len};
ghost use Rattle.ml_term.specs.CanonicalBytes.{counted_from_smallest, name_bytes};
ghost use Rattle.ml_term.specs.FirstDefect.{NodeOrDefect, defect_at, first_defect, integer_at};
ghost use Rattle.ml_term.specs.FirstDefect.{met_after_variable, name_at, variable_at};
ghost use Rattle.ml_term.specs.Names.{is_name_byte};
ghost use Rattle.ml_term.specs.inside.Reading.{AreRead, HasDefect, IsRead, RefusesAt};
ghost use Rattle.ml_term.specs.Seen.{all_seen, seen};
ghost use Rattle.ml_term.specs.StandsAt.{StandsAt};
ghost use Rattle.ml_term.specs.Tree.{Tree, trees_of};
ghost use Rattle.ml_term.specs.Valid.{is_in_range};
ghost use Rattle.ml_term.specs.declared.stop.BytesStop.TheVariants.{OutOfMemory};

use crate::limits::{INTEGER_COUNT, INTEGER_OFFSET, MAX_TERM_NODES};
use crate::name::{Name, is_name_byte};
use crate::stop::{BadBytes, BytesStop};
use crate::tags::{ATOM_TAG, COMPOUND_TAG, INTEGER_TAG, VARIABLE_TAG};
use crate::term::{Args, Term};
use std::alloc::Global;

// How far a reading has come: the place of the next byte, how many variables were met, and how
// many nodes may still come.
#[derive(Clone, Copy)]
struct Progress {
    at: usize,
    met: u32,
    left: usize,
}

impl Progress {
    // How far it has come after a node of some bytes.
    fn after_node(self, bytes: usize, met: u32) -> Progress
        requires at { self.at + bytes < 2 ^ 64 }
        requires left { 1 ≤ self.left }
        ensures at { result.at ≡ self.at + bytes }
        ensures met { result.met ≡ met }
        ensures left { self.left ≡ 1 + result.left }
    {
        Progress {
            at: self.at + bytes,
            met,
            left: self.left - 1,
        }
    }
}

// The refusal of bytes by the place of their first defect.
fn bad(place: usize) -> BytesStop
    ensures { RefusesAt result (λ p. p ≡ place) }
{
    BytesStop::Bad(BadBytes { place })
}

// The number of a variable, behind the tag at a place.
fn variable_behind(bytes: &[u8], at: usize, met: u32) -> Result<u32, BytesStop>
    requires { at + 1 + length bytes.now < 2 ^ 64 }
    ensures found { IfOk result (λ n. bytes.now ≡ to_be_bytes w32 n ++ drop 4 bytes.now) }
    ensures known { IfOk result (λ n. n ≤ met) }
    ensures bad { IfErr result (λ stop.
        RefusesAt stop (λ place. variable_at met at bytes.now ≡ defect_at place)) }
{
    if bytes.len() < 4 {
        return Err(bad(at + 1 + bytes.len()));
    }
    let number = u32::from_be_bytes([bytes[0], bytes[1], bytes[2], bytes[3]]);
    if met < number {
        return Err(bad(at));
    }
    Ok(number)
}

// An integer, behind the tag at a place.
fn integer_behind(bytes: &[u8], at: usize) -> Result<i64, BytesStop>
    requires { at + 1 + length bytes.now < 2 ^ 64 }
    ensures found { IfOk result (λ v. bytes.now ≡ to_be_bytes w64 (counted_from_smallest v)
        ++ drop 8 bytes.now) }
    ensures valid { IfOk result (λ v. IsTrue (is_in_range v)) }
    ensures bad { IfErr result (λ stop.
        RefusesAt stop (λ place. (met : ℕ) → integer_at met at bytes.now ≡ defect_at place)) }
{
    if bytes.len() < 8 {
        return Err(bad(at + 1 + bytes.len()));
    }
    let counted = u64::from_be_bytes([
        bytes[0], bytes[1], bytes[2], bytes[3], bytes[4], bytes[5], bytes[6], bytes[7],
    ]);
    if counted < INTEGER_COUNT {
        Ok(counted as i64 - INTEGER_OFFSET)
    } else {
        Err(bad(at))
    }
}

// How many bytes at the front a name may have.
fn name_bytes_in_front(bytes: &[u8]) -> usize
    ensures same { result ≡ prefix_len is_name_byte bytes.now }
    ensures within { result ≤ length bytes.now }
{
    for (i, b) in bytes.iter().enumerate() {
        if !is_name_byte(*b) {
            return i;
        }
    }
    bytes.len()
}

// A name with its length before it, which stands at a place.
fn name_behind(alloc: Global, bytes: &[u8], at: usize) -> Result<Name, BytesStop>
    requires { at + length bytes.now < 2 ^ 64 }
    ensures found { IfOk result (λ name. bytes.now ≡ name_bytes name
        ++ drop (1 + length name) bytes.now) }
    ensures bad { IfErr result (λ stop. RefusesAt stop (λ place.
        (front arguments met tag : ℕ) → tag + front ≡ at →
        name_at front arguments met tag bytes.now ≡ defect_at place)) }
{
    let Some((count, rest)) = bytes.split_first() else {
        return Err(bad(at));
    };
    let count = usize::from(*count);
    let name = &rest[..count.min(rest.len())];
    let good = name_bytes_in_front(name);
    if good < count {
        return Err(bad(at + 1 + good));
    }
    Ok(Name::new(alloc, name)?)
}

// The term at a place.
#[cycle(reading)]
fn term_at(alloc: Global, bytes: &[u8], before: Progress) -> Result<(Term, Progress), BytesStop>
    requires place { before.at ≤ length bytes.now }
    requires room { before.met + before.left ≤ MAX_TERM_NODES }
    ensures found { IfOk result (λ found. IsRead bytes.now before (seen found.0) found.1) }
    ensures bad { IfErr result (λ stop. RefusesAt stop (HasDefect bytes.now 1 before)) }
{
    if before.left == 0 {
        return Err(bad(before.at));
    }
    let (_, here) = bytes.split_at(before.at);
    let Some((tag, behind)) = here.split_first() else {
        return Err(bad(before.at));
    };
    match *tag {
        VARIABLE_TAG => {
            let number = variable_behind(behind, before.at, before.met)?;
            let met = if number == before.met {
                before.met + 1
            } else {
                before.met
            };
            Ok((Term::Var(number), before.after_node(5, met)))
        }
        INTEGER_TAG => {
            let v = integer_behind(behind, before.at)?;
            Ok((Term::Int(v), before.after_node(9, before.met)))
        }
        ATOM_TAG => {
            let name = name_behind(alloc, behind, before.at + 1)?;
            let after = before.after_node(2 + name.as_slice().len(), before.met);
            Ok((Term::Atom(name), after))
        }
        COMPOUND_TAG => compound_at(alloc, bytes, behind, before),
        _ => Err(bad(before.at)),
    }
}

// The compound whose tag stands at a place, and whose bytes behind the tag are given.
#[cycle(reading)]
fn compound_at(
    alloc: Global,
    bytes: &[u8],
    behind: &[u8],
    before: Progress,
) -> Result<(Term, Progress), BytesStop>
    requires tag { drop before.at bytes.now ≡ COMPOUND_TAG ∷ behind.now }
    requires left { 1 ≤ before.left }
    requires room { before.met + before.left ≤ MAX_TERM_NODES }
    ensures found { IfOk result (λ found. IsRead bytes.now before (seen found.0) found.1) }
    ensures bad { IfErr result (λ stop. RefusesAt stop (HasDefect bytes.now 1 before)) }
{
    let Some((arity, rest)) = behind.split_first() else {
        return Err(bad(before.at + 1));
    };
    if *arity == 0 {
        return Err(bad(before.at + 1));
    }
    let name = name_behind(alloc, rest, before.at + 2)?;
    let inner = before.after_node(3 + name.as_slice().len(), before.met);
    let (args, after) = args_at(alloc, bytes, *arity, inner)?;
    Ok((Term::Cmp(name, Args::new(args)), after))
}

// So many terms, one after the other from a place on.
#[cycle(reading)]
fn args_at(
    alloc: Global,
    bytes: &[u8],
    count: u8,
    before: Progress,
) -> Result<(Vec<Term>, Progress), BytesStop>
    requires place { before.at ≤ length bytes.now }
    requires room { before.met + before.left ≤ MAX_TERM_NODES }
    ensures found { IfOk result (λ found.
        AreRead bytes.now before (trees_of (all_seen found.0.items)) found.1) }
    ensures count { IfOk result (λ found. length found.0.items ≡ count) }
    ensures bad { IfErr result (λ stop. RefusesAt stop (HasDefect bytes.now count before)) }
{
    let mut args = Vec::new(alloc);
    let mut after = before;
    for _ in 0..count {
        let (arg, next) = term_at(alloc, bytes, after)?;
        args.push(arg)?;
        after = next;
    }
    Ok((args, after))
}

/// The term whose canonical bytes stand at a place, and the place after them.
/// Where none stand there, the place of the first defect, the bytes being read from the left.
pub fn from_bytes(alloc: Global, bytes: &[u8], at: usize) -> Result<(Term, usize), BytesStop>
    requires { at ≤ length bytes.now }
    ensures found { IfOk result (λ found. StandsAt bytes.now at (seen found.0) found.1) }
    ensures within { IfOk result (λ found. found.1 ≤ length bytes.now) }
    ensures bad { IfErr result (λ stop.
        RefusesAt stop (λ place. first_defect bytes.now at ≡ Some place)) }
    ensures only { (t : Tree) (after : ℕ) → StandsAt bytes.now at t after →
        MatchResult result (λ found. (seen found.0 ≡ t) × (found.1 ≡ after))
        (λ stop. stop ≡ OutOfMemory) }
{
    let before = Progress {
        at,
        met: 0,
        left: MAX_TERM_NODES,
    };
    let (term, after) = term_at(alloc, bytes, before)?;
    Ok((term, after.at))
}
