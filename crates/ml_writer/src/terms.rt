//! The text of terms.
ghost use Rattle.std.specs.Prelude.{◌≡◌, ◌∷◌, [], ◌++◌, length, OnOk};
ghost use Rattle.ml_term.specs.Seen.{all_seen, seen};
ghost use Rattle.ml_term.specs.Text.{is_cell, text_of};
ghost use Rattle.ml_term.specs.Tree.{atom, compound, trees_of, variable, variables, variables_of};
ghost use Rattle.ml_writer.specs.inside.Parts.{MeetTheSame, arguments_text, elements_text};
ghost use Rattle.ml_writer.specs.inside.Parts.{tail_text};

use crate::draft::Draft;
use crate::met::MetVariables;
use crate::names::put_name;
use crate::numbers::{put_integer, put_number};
use ml_term::{Name, Term};
use std::alloc::AllocError;

// Whether a compound is a cell of a list.
fn is_cell(name: &Name, args: &[Term]) -> bool
    ensures { result ≡ is_cell name.now (trees_of (all_seen args.now)) }
{
    name.as_slice() == b".".as_slice() && args.len() == 2
}

// The head and the tail of a cell of a list.
fn parts_of(args: &[Term]) -> (&Term, &Term)
    requires { length args.now ≡ 2 }
    ensures { args.now ≡ result.0.now ∷ result.1.now ∷ [] }
{
    (&args[0], &args[1])
}

/// Puts a term's text behind a text, and the variables that it meets behind those met before.
#[cycle(put_term)]
pub(crate) fn put_term(t: &Term, met: &mut MetVariables, out: &mut Draft) -> Result<(), AllocError>
    ensures kept { out.new.before ≡ out.old.before }
    ensures text { OnOk result (out.new.text ≡ out.old.text ++ text_of (seen t.now) met.old) }
    ensures met { OnOk result (MeetTheSame met.new (met.old ++ variables (seen t.now))) }
{
    match t {
        Term::Var(n) => put_variable(*n, met, out),
        Term::Int(v) => put_integer(*v, out),
        Term::Atom(name) => put_name(name.as_slice(), out),
        Term::Cmp(name, args) => put_compound(name, args.as_slice(), met, out),
    }
}

// The same for a variable.
fn put_variable(number: u32, met: &mut MetVariables, out: &mut Draft) -> Result<(), AllocError>
    ensures kept { out.new.before ≡ out.old.before }
    ensures text { OnOk result (out.new.text ≡ out.old.text ++ text_of (variable number) met.old) }
    ensures met { OnOk result (MeetTheSame met.new (met.old ++ number ∷ [])) }
{
    let place = met.number(number)?;
    out.put(b"_")?;
    put_number(place, out)
}

// The same for a compound.
#[cycle(put_term)]
fn put_compound(
    name: &Name,
    args: &[Term],
    met: &mut MetVariables,
    out: &mut Draft,
) -> Result<(), AllocError>
    ensures kept { out.new.before ≡ out.old.before }
    ensures text { OnOk result (out.new.text ≡ out.old.text
        ++ text_of (compound name.now (trees_of (all_seen args.now))) met.old) }
    ensures met { OnOk result
        (MeetTheSame met.new (met.old ++ variables_of (trees_of (all_seen args.now)))) }
{
    if is_cell(name, args) {
        let (head, tail) = parts_of(args);
        out.put(b"[")?;
        put_elements(head, tail, met, out)?;
        return out.put(b"]");
    }
    put_name(name.as_slice(), out)?;
    out.put(b"(")?;
    put_arguments(args, met, out)?;
    out.put(b")")
}

// Puts the texts of arguments behind a text, with commas between, and the variables that they meet
// behind those met before.
#[cycle(put_term)]
fn put_arguments(args: &[Term], met: &mut MetVariables, out: &mut Draft) -> Result<(), AllocError>
    ensures kept { out.new.before ≡ out.old.before }
    ensures text { OnOk result (out.new.text
        ≡ out.old.text ++ arguments_text (trees_of (all_seen args.now)) met.old) }
    ensures met { OnOk result
        (MeetTheSame met.new (met.old ++ variables_of (trees_of (all_seen args.now)))) }
{
    let Some((first, rest)) = args.split_first() else {
        return Ok(());
    };
    put_term(first, met, out)?;
    if rest.is_empty() {
        return Ok(());
    }
    out.put(b",")?;
    put_arguments(rest, met, out)
}

// The same for an element of a list and what follows it.
#[cycle(put_term)]
fn put_elements(
    head: &Term,
    tail: &Term,
    met: &mut MetVariables,
    out: &mut Draft,
) -> Result<(), AllocError>
    ensures kept { out.new.before ≡ out.old.before }
    ensures text { OnOk result (out.new.text ≡ out.old.text ++ elements_text (seen head.now)
        (seen tail.now) met.old) }
    ensures met { OnOk result
        (MeetTheSame met.new
        (met.old ++ (variables (seen head.now) ++ variables (seen tail.now)))) }
{
    put_term(head, met, out)?;
    put_tail(tail, met, out)
}

// The same for what follows an element of a list: nothing, more elements, or a bar and an end.
#[cycle(put_term)]
fn put_tail(tail: &Term, met: &mut MetVariables, out: &mut Draft) -> Result<(), AllocError>
    ensures kept { out.new.before ≡ out.old.before }
    ensures text { OnOk result (out.new.text ≡ out.old.text ++ tail_text (seen tail.now) met.old) }
    ensures met { OnOk result (MeetTheSame met.new (met.old ++ variables (seen tail.now))) }
{
    match tail {
        Term::Var(n) => {
            out.put(b"|")?;
            put_variable(*n, met, out)
        }
        Term::Int(v) => {
            out.put(b"|")?;
            put_integer(*v, out)
        }
        Term::Atom(name) => put_atom_tail(name.as_slice(), out),
        Term::Cmp(name, args) => put_compound_tail(name, args.as_slice(), met, out),
    }
}

// Puts what follows an element of a list behind a text, where it is an atom: nothing for the end of
// a list, and a bar and the atom for another.
fn put_atom_tail(name: &[u8], out: &mut Draft) -> Result<(), AllocError>
    ensures kept { out.new.before ≡ out.old.before }
    ensures text { OnOk result (out.new.text ≡ out.old.text ++ tail_text (atom name.now) []) }
{
    if name == b"[]".as_slice() {
        return Ok(());
    }
    out.put(b"|")?;
    put_name(name, out)
}

// The same for a compound that follows an element of a list.
#[cycle(put_term)]
fn put_compound_tail(
    name: &Name,
    args: &[Term],
    met: &mut MetVariables,
    out: &mut Draft,
) -> Result<(), AllocError>
    ensures kept { out.new.before ≡ out.old.before }
    ensures text { OnOk result (out.new.text ≡ out.old.text ++ tail_text
        (compound name.now (trees_of (all_seen args.now))) met.old) }
    ensures met { OnOk result
        (MeetTheSame met.new (met.old ++ variables_of (trees_of (all_seen args.now)))) }
{
    if is_cell(name, args) {
        let (head, tail) = parts_of(args);
        out.put(b",")?;
        return put_elements(head, tail, met, out);
    }
    out.put(b"|")?;
    put_compound(name, args, met, out)
}
