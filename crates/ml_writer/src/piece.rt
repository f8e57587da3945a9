//! What one call writes.
ghost use Rattle.std.specs.Prelude.{◌≡◌, ◌≤◌, ◌<◌, [], ◌++◌, length, codes, IfOk, OnOk, OnErr};
ghost use Rattle.std.specs.Prelude.{IsErrOf};
ghost use Rattle.ml_term.specs.Seen.{seen};
ghost use Rattle.ml_term.specs.Text.{text_of};
ghost use Rattle.ml_term.specs.Tree.{variables};
ghost use Rattle.ml_search.specs.Session.{bindings_text};
ghost use Rattle.ml_writer.specs.AnswerText.{bindings_seen, names_of, terms_of};
ghost use Rattle.ml_writer.specs.inside.Parts.{MeetTheSame};
ghost use Rattle.ml_writer.specs.inside.PieceText.{piece_text};

use crate::draft::Draft;
use crate::met::MetVariables;
use crate::numbers::put_number;
use crate::stop::LineStop;
use crate::terms::put_term;
use ml_term::{Name, Term};
use std::alloc::{AllocError, Global};
use std::mem;

/// What one call writes: a term, or a line.
#[derive(Clone, Copy)]
pub enum Piece<'a> {
    /// A term by itself.
    Term(&'a Term),
    /// `goal J`.
    Goal(u32),
    /// `  N answers`.
    Count(u32),
    /// `  error TERM`.
    Error(&'a Term),
    /// Two spaces, and `NAME = TERM` for each of these, or `true`.
    Answer(&'a [(Name, Term)]),
}

/// The text of a term by itself. Its unbound variables are numbered by first place.
pub fn term_text(alloc: Global, t: &Term) -> Result<Vec<u8>, AllocError>
    ensures { IfOk result (λ bytes. bytes.items ≡ text_of (seen t.now) []) }
{
    let mut bytes = Vec::new(alloc);
    append(&mut bytes, &Piece::Term(t))?;
    Ok(bytes)
}

/// Puts a text of at most so many bytes behind others, and tells its length.
pub fn append_within(bytes: &mut Vec<u8>, piece: &Piece<'_>, room: usize) -> Result<usize, LineStop>
    ensures written { OnOk result (bytes.new.items ≡ bytes.old.items ++ piece_text piece.now) }
    ensures refused { OnErr result (bytes.new.items ≡ bytes.old.items) }
    ensures count { IfOk result (λ n. n ≡ length (piece_text piece.now)) }
    ensures fits { OnOk result (length (piece_text piece.now) ≤ room) }
    ensures full { IsErrOf result LineStop.Full → room < length (piece_text piece.now) }
{
    let start = bytes.len();
    append(bytes, piece)?;
    let count = bytes.len() - start;
    if count > room {
        bytes.truncate(start);
        return Err(LineStop::Full);
    }
    Ok(count)
}

/// Puts a text behind others.
pub fn append(bytes: &mut Vec<u8>, piece: &Piece<'_>) -> Result<(), AllocError>
    ensures written { OnOk result (bytes.new.items ≡ bytes.old.items ++ piece_text piece.now) }
    ensures refused { OnErr result (bytes.new.items ≡ bytes.old.items) }
{
    let alloc = *bytes.allocator();
    let mut out = Draft::behind(mem::replace(bytes, Vec::new(alloc)));
    let result = put_piece(alloc, piece, &mut out);
    *bytes = out.end(result.is_ok());
    result
}

// Puts a term or a line behind a text. A line has its line feed.
fn put_piece(alloc: Global, piece: &Piece<'_>, out: &mut Draft) -> Result<(), AllocError>
    ensures kept { out.new.before ≡ out.old.before }
    ensures text { OnOk result (out.new.text ≡ out.old.text ++ piece_text piece.now) }
{
    match *piece {
        Piece::Term(t) => put_term(t, &mut MetVariables::new(alloc), out),
        Piece::Goal(j) => {
            out.put(b"goal ")?;
            put_number(u64::from(j), out)?;
            out.put(b"\n")
        }
        Piece::Count(n) => {
            out.put(b"  ")?;
            put_number(u64::from(n), out)?;
            out.put(b" answers\n")
        }
        Piece::Error(t) => {
            out.put(b"  error ")?;
            put_term(t, &mut MetVariables::new(alloc), out)?;
            out.put(b"\n")
        }
        Piece::Answer(bindings) => {
            out.put(b"  ")?;
            put_bindings(bindings, &mut MetVariables::new(alloc), out)?;
            out.put(b"\n")
        }
    }
}

// Puts `NAME = TERM` for each of these behind a text, with `, ` between, or `true` where there is
// none.
fn put_bindings(
    bindings: &[(Name, Term)],
    met: &mut MetVariables,
    out: &mut Draft,
) -> Result<(), AllocError>
    ensures kept { out.new.before ≡ out.old.before }
    ensures text { OnOk result (out.new.text ≡ out.old.text ++ bindings_text
        (names_of (bindings_seen bindings.now)) (terms_of (bindings_seen bindings.now)) met.old) }
{
    let Some((first, rest)) = bindings.split_first() else {
        return out.put(b"true");
    };
    put_binding(first, met, out)?;
    for binding in rest {
        out.put(b", ")?;
        put_binding(binding, met, out)?;
    }
    Ok(())
}

// Puts `NAME = TERM` behind a text.
fn put_binding(
    binding: &(Name, Term),
    met: &mut MetVariables,
    out: &mut Draft,
) -> Result<(), AllocError>
    ensures kept { out.new.before ≡ out.old.before }
    ensures text { OnOk result (out.new.text ≡ out.old.text
        ++ (binding.now.0 ++ codes " = " ++ text_of (seen binding.now.1) met.old)) }
    ensures met { OnOk result (MeetTheSame met.new (met.old ++ variables (seen binding.now.1))) }
{
    let (name, term) = binding;
    out.put(name.as_slice())?;
    out.put(b" = ")?;
    put_term(term, met, out)
}
