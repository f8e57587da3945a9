//! The lines of a session.
ghost use Rattle.std.specs.Prelude.{◌≡◌, ◌+◌, ◌-◌, ◌≤◌, ◌<◌, [], ◌∷◌, ◌++◌, length, vec_len};
ghost use Rattle.std.specs.Prelude.{vec_capacity, IfOk, OnOk, OnErr, IsErrOf};
ghost use Rattle.ml_term.specs.Seen.{seen};
ghost use Rattle.ml_term.specs.Text.{text_of};
ghost use Rattle.ml_search.specs.Limits.{max_answer_bytes};
ghost use Rattle.ml_search.specs.Session.{goal_line, count_line, error_line};
ghost use Rattle.ml_writer.specs.Output.{no_output, bytes_of, with_text, with_line, with_counted};
ghost use Rattle.ml_writer.specs.AnswerText.{line_of_answer, bindings_seen};
ghost use Rattle.ml_writer.specs.inside.PieceText.{piece_text};

use crate::limits::MAX_ANSWER_BYTES;
use crate::piece::{Piece, append, append_within};
use crate::stop::LineStop;
use ml_term::{Name, Term};
use std::alloc::{AllocError, Global};
use std::marker::Model;

/// The lines of a session, as they are written one after another. Contracts see the finished lines,
/// each with its line feed, the text of a line that isn't finished, and the number of answer bytes.
/// After each refusal the lines are as before.
#[derive(Drop)]
pub struct Lines {
    bytes: Vec<u8>,
    lengths: Vec<usize>,
    finished: usize,
    answer_bytes: usize,
}

impl Model for Lines {
    ghost use Rattle.ml_writer.specs.Output.{Output};

    ghost Value = { Output };

    ghost use Rattle.ml_writer.specs.inside.Layout.{output_of, IsLaidOut};

    ghost view = { λ l. output_of l.bytes.items l.lengths.items l.answer_bytes };

    ghost invariant = { λ l. IsLaidOut l.bytes.items l.lengths.items l.finished l.answer_bytes };
}

impl Lines {
    /// No lines.
    pub fn new(alloc: Global) -> Lines
        ensures { result ≡ no_output }
    {
        Lines {
            bytes: Vec::new(alloc),
            lengths: Vec::new(alloc),
            finished: 0,
            answer_bytes: 0,
        }
    }

    /// Equal lines.
    pub fn copy_of(&self) -> Result<Lines, AllocError>
        ensures { IfOk result (λ lines. lines ≡ self.now) }
    {
        let alloc = *self.bytes.allocator();
        let bytes = Vec::from_slice(alloc, self.bytes.as_slice())?;
        let lengths = Vec::from_slice(alloc, self.lengths.as_slice())?;
        Ok(Lines {
            bytes,
            lengths,
            finished: self.finished,
            answer_bytes: self.answer_bytes,
        })
    }

    /// The bytes of all lines, one after another, each with its line feed, and then those of the
    /// line that isn't finished.
    pub fn bytes(&self) -> &[u8]
        ensures { result.now ≡ bytes_of self.now }
    {
        self.bytes.as_slice()
    }

    /// Writes the line `goal J`.
    pub fn goal(&mut self, j: u32) -> Result<(), AllocError>
        ensures written { OnOk result (self.new ≡ with_line (goal_line j) self.old) }
        ensures refused { OnErr result (self.new ≡ self.old) }
    {
        self.add(&Piece::Goal(j))
    }

    /// Writes the line `  N answers`.
    pub fn count(&mut self, n: u32) -> Result<(), AllocError>
        ensures written { OnOk result (self.new ≡ with_line (count_line n) self.old) }
        ensures refused { OnErr result (self.new ≡ self.old) }
    {
        self.add(&Piece::Count(n))
    }

    /// Writes the line `  error TERM`.
    pub fn error(&mut self, t: &Term) -> Result<(), AllocError>
        ensures written { OnOk result (self.new ≡ with_line (error_line (seen t.now)) self.old) }
        ensures refused { OnErr result (self.new ≡ self.old) }
    {
        self.add(&Piece::Error(t))
    }

    /// Writes a line of an answer: two spaces, and `NAME = TERM` for each of these with `, `
    /// between, or `true` where there is none. The unbound variables of all terms together are
    /// numbered by first place. The line counts with its spaces and its line feed.
    pub fn answer(&mut self, terms: &[(Name, Term)]) -> Result<(), LineStop>
        ensures written { let l = line_of_answer (bindings_seen terms.now) in
            OnOk result (self.new ≡ with_counted l (with_line l self.old)) }
        ensures refused { OnErr result (self.new ≡ self.old) }
        ensures fits { let l = line_of_answer (bindings_seen terms.now) in
            OnOk result (self.old.answer_bytes + length l ≤ max_answer_bytes) }
        ensures full { let l = line_of_answer (bindings_seen terms.now) in
            IsErrOf result LineStop.Full → max_answer_bytes < self.old.answer_bytes + length l }
    {
        self.lengths.reserve(1)?;
        let room = MAX_ANSWER_BYTES - self.answer_bytes;
        let count = append_within(&mut self.bytes, &Piece::Answer(terms), room)?;
        self.answer_bytes += count;
        finish(&self.bytes, &mut self.lengths, &mut self.finished);
        Ok(())
    }

    // Writes a line that doesn't count.
    fn add(&mut self, piece: &Piece<'_>) -> Result<(), AllocError>
        ensures written { OnOk result (self.new ≡ with_line (piece_text piece.now) self.old) }
        ensures refused { OnErr result (self.new ≡ self.old) }
    {
        self.lengths.reserve(1)?;
        append(&mut self.bytes, piece)?;
        finish(&self.bytes, &mut self.lengths, &mut self.finished);
        Ok(())
    }
}

// Ends the line that isn't finished, where there is room for its length.
fn finish(bytes: &Vec<u8>, lengths: &mut Vec<usize>, finished: &mut usize)
    requires room { vec_len lengths.old < vec_capacity lengths.old }
    requires within { finished.old ≤ vec_len bytes.now }
    ensures lengths { lengths.new.items ≡ lengths.old.items
        ++ (length bytes.now.items - finished.old) ∷ [] }
    ensures finished { finished.new ≡ length bytes.now.items }
{
    match lengths.push(bytes.len() - *finished) {
        Ok(()) => *finished = bytes.len(),
        Err(_) => unreachable!(),
    }
}

/// Writes a term's text behind all others, in a line that isn't finished by it. Its unbound
/// variables are numbered by first place in the term. Its bytes count as answer bytes.
pub fn write_term(t: &Term, out: &mut Lines) -> Result<(), LineStop>
    ensures written { let text = text_of (seen t.now) [] in
        OnOk result (out.new ≡ with_counted text (with_text text out.old)) }
    ensures refused { OnErr result (out.new ≡ out.old) }
    ensures fits { let text = text_of (seen t.now) [] in
        OnOk result (out.old.answer_bytes + length text ≤ max_answer_bytes) }
    ensures full { let text = text_of (seen t.now) [] in IsErrOf result LineStop.Full
        → max_answer_bytes < out.old.answer_bytes + length text }
{
    let room = MAX_ANSWER_BYTES - out.answer_bytes;
    let count = append_within(&mut out.bytes, &Piece::Term(t), room)?;
    out.answer_bytes += count;
    Ok(())
}
