//! A term as its canonical bytes.
ghost use Rattle.std.specs.Prelude.{◌≡◌, ◌≤◌, ◌∷◌, ◌++◌, IsTrue, IfOk, OnOk, length, vec_len};
ghost use Rattle.ml_term.specs.CanonicalBytes.{bytes_of, bytes_of_all, name_bytes};
ghost use Rattle.ml_term.specs.Seen.{all_seen, seen};
ghost use Rattle.ml_term.specs.StandsAt.{StandsAt};
ghost use Rattle.ml_term.specs.Tree.{is_numbered, nodes, trees_of};
ghost use Rattle.ml_term.specs.Valid.{are_valid, is_valid};

use crate::code::counted_from_smallest;
use crate::limits::MAX_TERM_NODES;
use crate::name::Name;
use crate::tags::{ATOM_TAG, COMPOUND_TAG, INTEGER_TAG, VARIABLE_TAG};
use crate::term::Term;
use std::alloc::{AllocError, Global};

// Puts a byte and some more bytes at the end.
fn append_tagged(out: &mut Vec<u8>, tag: u8, bytes: &[u8]) -> Result<(), AllocError>
    ensures { OnOk result (out.new.items ≡ out.old.items ++ tag ∷ bytes.now) }
{
    out.push(tag)?;
    out.extend_from_slice(bytes)?;
    Ok(())
}

// Puts some bytes, a name's length and its bytes at the end.
fn append_named(out: &mut Vec<u8>, front: &[u8], name: &Name) -> Result<(), AllocError>
    ensures { OnOk result (out.new.items ≡ out.old.items ++ (front.now ++ name_bytes name.now)) }
{
    let bytes = name.as_slice();
    out.extend_from_slice(front)?;
    append_tagged(out, bytes.len() as u8, bytes)
}

// Puts a term's canonical bytes at the end.
#[cycle(append_term)]
fn append_term(out: &mut Vec<u8>, t: &Term) -> Result<(), AllocError>
    requires { IsTrue (is_valid (seen t.now)) }
    ensures { OnOk result (out.new.items ≡ out.old.items ++ bytes_of (seen t.now)) }
{
    match t {
        Term::Var(n) => append_tagged(out, VARIABLE_TAG, &n.to_be_bytes()),
        Term::Int(v) => append_tagged(out, INTEGER_TAG, &counted_from_smallest(*v).to_be_bytes()),
        Term::Atom(f) => append_named(out, &[ATOM_TAG], f),
        Term::Cmp(f, ts) => {
            let args = ts.as_slice();
            append_named(out, &[COMPOUND_TAG, args.len() as u8], f)?;
            append_terms(out, args)
        }
    }
}

// Puts some terms' canonical bytes at the end.
#[cycle(append_term)]
fn append_terms(out: &mut Vec<u8>, ts: &[Term]) -> Result<(), AllocError>
    requires { IsTrue (are_valid (trees_of (all_seen ts.now))) }
    ensures { OnOk result (out.new.items ≡ out.old.items
        ++ bytes_of_all (trees_of (all_seen ts.now))) }
{
    match ts.split_first() {
        None => Ok(()),
        Some((t, rest)) => {
            append_term(out, t)?;
            append_terms(out, rest)
        }
    }
}

/// The canonical bytes of a term whose variables are numbered from 0 by first place. From the place
/// 0 on it is read back.
pub fn to_bytes(alloc: Global, t: &Term) -> Result<Vec<u8>, AllocError>
    requires valid { IsTrue (is_valid (seen t.now)) }
    requires numbered { IsTrue (is_numbered (seen t.now)) }
    requires small { nodes (seen t.now) ≤ MAX_TERM_NODES }
    ensures same { IfOk result (λ bytes. bytes.items ≡ bytes_of (seen t.now)) }
    ensures stands { IfOk result (λ bytes. StandsAt bytes.items 0 (seen t.now) (vec_len bytes)) }
{
    let mut bytes = Vec::new(alloc);
    append_term(&mut bytes, t)?;
    Ok(bytes)
}
