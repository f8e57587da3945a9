//! The canonical bytes of a term, as bits at the end of a list.
ghost use Rattle.std.specs.Prelude.{◌≡◌, ◌+◌, ◌-◌, ◌*◌, ◌^◌, ◌<◌, ◌≤◌, ◌∷◌, ◌++◌, IsTrue, length};
ghost use Rattle.ml_key.specs.inside.Extension.{extend_list};
ghost use Rattle.ml_term.specs.CanonicalBytes.{bytes_of, bytes_of_all, name_bytes};
ghost use Rattle.ml_term.specs.Codes.{byte_bits};
ghost use Rattle.ml_term.specs.Seen.{all_seen, seen};
ghost use Rattle.ml_term.specs.Tree.{nodes, nodes_of, trees_of};
ghost use Rattle.ml_term.specs.Valid.{are_valid, is_valid};

use crate::extend::append_bytes;
use crate::limits::MAX_NODE_BYTES;
use ml_bits::Bits;
use ml_term::{
    ATOM_TAG, COMPOUND_TAG, INTEGER_TAG, MAX_TERM_NODES, Name, Term, VARIABLE_TAG,
    counted_from_smallest,
};

// How many canonical bytes a term has.
#[cycle(canonical_len)]
pub(crate) fn canonical_len(t: &Term) -> usize
    requires valid { IsTrue (is_valid (seen t.now)) }
    requires small { nodes (seen t.now) ≤ MAX_TERM_NODES }
    ensures same { result ≡ length (bytes_of (seen t.now)) }
    ensures small { result ≤ MAX_NODE_BYTES * nodes (seen t.now) }
{
    match t {
        Term::Var(_) => 5,
        Term::Int(_) => 9,
        Term::Atom(f) => 2 + f.as_slice().len(),
        Term::Cmp(f, ts) => 3 + f.as_slice().len() + all_canonical_len(ts.as_slice()),
    }
}

// How many canonical bytes some terms have together.
#[cycle(canonical_len)]
fn all_canonical_len(ts: &[Term]) -> usize
    requires valid { IsTrue (are_valid (trees_of (all_seen ts.now))) }
    requires small { nodes_of (trees_of (all_seen ts.now)) ≤ MAX_TERM_NODES }
    ensures same { result ≡ length (bytes_of_all (trees_of (all_seen ts.now))) }
    ensures small { result ≤ MAX_NODE_BYTES * nodes_of (trees_of (all_seen ts.now)) }
{
    match ts.split_first() {
        None => 0,
        Some((t, ts)) => canonical_len(t) + all_canonical_len(ts),
    }
}

// Puts the bits of a byte and of some more bytes at the end of a list that has room for them.
fn append_tagged(list: &mut Bits, tag: u8, bytes: &[u8])
    requires { length list.old.bits + 8 * (1 + length bytes.now) ≤ list.old.room }
    ensures { list.new ≡ extend_list list.old (byte_bits (tag ∷ bytes.now)) }
{
    append_bytes(list, &[tag]);
    append_bytes(list, bytes);
}

// Puts the bits of some bytes, of a name's length and of its bytes at the end of a list that has
// room for them.
fn append_named(list: &mut Bits, front: &[u8], name: &Name)
    requires { length list.old.bits + 8 * (length front.now + (1 + length name.now))
        ≤ list.old.room }
    ensures { list.new ≡ extend_list list.old (byte_bits (front.now ++ name_bytes name.now)) }
{
    let bytes = name.as_slice();
    append_bytes(list, front);
    append_tagged(list, bytes.len() as u8, bytes);
}

// Puts the bits of a term's canonical bytes at the end of a list that has room for them.
#[cycle(append_term)]
pub(crate) fn append_term(list: &mut Bits, t: &Term)
    requires valid { IsTrue (is_valid (seen t.now)) }
    requires room { length list.old.bits + 8 * length (bytes_of (seen t.now)) ≤ list.old.room }
    ensures { list.new ≡ extend_list list.old (byte_bits (bytes_of (seen t.now))) }
{
    match t {
        Term::Var(n) => append_tagged(list, VARIABLE_TAG, &n.to_be_bytes()),
        Term::Int(v) => append_tagged(list, INTEGER_TAG, &counted_from_smallest(*v).to_be_bytes()),
        Term::Atom(f) => append_named(list, &[ATOM_TAG], f),
        Term::Cmp(f, ts) => {
            let args = ts.as_slice();
            append_named(list, &[COMPOUND_TAG, args.len() as u8], f);
            append_terms(list, args);
        }
    }
}

// Puts the bits of some terms' canonical bytes at the end of a list that has room for them.
#[cycle(append_term)]
fn append_terms(list: &mut Bits, ts: &[Term])
    requires valid { IsTrue (are_valid (trees_of (all_seen ts.now))) }
    requires room { length list.old.bits + 8 * length (bytes_of_all (trees_of (all_seen ts.now)))
        ≤ list.old.room }
    ensures { list.new ≡ extend_list list.old
        (byte_bits (bytes_of_all (trees_of (all_seen ts.now)))) }
{
    if let Some((t, rest)) = ts.split_first() {
        append_term(list, t);
        append_terms(list, rest);
    }
}
