//! Worked rows: what the definitions give, computed. The functions do nothing: their contracts are
//! the rows.
ghost use Rattle.std.specs.Prelude.{◌≡◌, ℕ, pos, negsuc, true, false, [], ◌∷◌, codes, slice_get};
ghost use Rattle.std.specs.Prelude.{take, Some, None};
ghost use Rattle.std.specs.declared.cmp.Ordering.TheVariants.{Less};
ghost use Rattle.ml_term.specs.CanonicalBytes.{bytes_of};
ghost use Rattle.ml_term.specs.Codes.{bits, code};
ghost use Rattle.ml_term.specs.FirstDefect.{first_defect};
ghost use Rattle.ml_term.specs.Keys.{tuple_cmp, tuple_key};
ghost use Rattle.ml_term.specs.inside.Rows.{q};
ghost use Rattle.ml_term.specs.Text.{text_of};
ghost use Rattle.ml_term.specs.Tree.{Tree, atom, compound_1, compound_2, integer, variable};

/// The codes of some terms.
/// `departments`: two atoms whose names differ after the seventh byte have one code.
pub fn codes_of_terms()
    ensures variable { (n : ℕ) → code (variable n) ≡ bits 64 0x0000000000000000 }
    ensures zero { code (integer (pos 0)) ≡ bits 64 0x6000000000000000 }
    ensures one { code (integer (pos 1)) ≡ bits 64 0x6000000000000001 }
    ensures minus_one { code (integer (negsuc 0)) ≡ bits 64 0x5fffffffffffffff }
    ensures smallest { code (integer (negsuc 2305843009213693951)) ≡ bits 64 0x4000000000000000 }
    ensures a { code (atom (codes "a")) ≡ bits 64 0x9840000000000001 }
    ensures nil { code (atom (codes "[]")) ≡ bits 64 0x96d7400000000002 }
    ensures compound { (t : Tree) → code (compound_1 (codes "f") t) ≡ bits 64 0xc059800000000001 }
    ensures departments { code (atom (codes "department_a")) ≡ code (atom (codes "department_b")) }
{}

/// The keys of q(0,2) and q(1,0) where both arguments are keyed, and where one is.
/// `before`: they are the same at the first 125 places. `has_one`, `has_zero`: and at place 125,
/// counted from 0, they differ.
pub fn keys_of_pairs()
    ensures before { take 125 (tuple_key (1 ∷ 2 ∷ []) (q 0 2))
        ≡ take 125 (tuple_key (1 ∷ 2 ∷ []) (q 1 0)) }
    ensures has_one { slice_get (tuple_key (1 ∷ 2 ∷ []) (q 0 2)) 125 ≡ Some true }
    ensures has_zero { slice_get (tuple_key (1 ∷ 2 ∷ []) (q 1 0)) 125 ≡ Some false }
    ensures by_both { tuple_cmp (1 ∷ 2 ∷ []) (q 1 0) (q 0 2) ≡ Less }
    ensures by_first { tuple_cmp (1 ∷ []) (q 0 2) (q 1 0) ≡ Less }
    ensures by_second { tuple_cmp (2 ∷ []) (q 1 0) (q 0 2) ≡ Less }
{}

/// The canonical bytes of p(1) and of -1.
pub fn canonical_bytes_of_terms()
    ensures compound { bytes_of (compound_1 (codes "p") (integer (pos 1)))
        ≡ 3 ∷ 1 ∷ 1 ∷ 0x70 ∷ 1 ∷ 0x20 ∷ 0 ∷ 0 ∷ 0 ∷ 0 ∷ 0 ∷ 0 ∷ 1 ∷ [] }
    ensures minus_one { bytes_of (integer (negsuc 0))
        ≡ 1 ∷ 0x1f ∷ 0xff ∷ 0xff ∷ 0xff ∷ 0xff ∷ 0xff ∷ 0xff ∷ 0xff ∷ [] }
{}

/// The first defects of some bytes: what is none, the end, another tag, a number that is left out,
/// too large an integer, a byte that no name has, and the arity 0.
pub fn defects_of_bytes()
    ensures sound { first_defect (9 ∷ 3 ∷ 1 ∷ 1 ∷ 0x70 ∷ 1 ∷ 0x20 ∷ 0 ∷ 0 ∷ 0 ∷ 0 ∷ 0 ∷ 0 ∷ 1 ∷ [])
        1 ≡ None }
    ensures cut { first_defect (9 ∷ 3 ∷ 1 ∷ 1 ∷ 0x70 ∷ 1 ∷ 0x20 ∷ 0 ∷ 0 ∷ []) 1 ≡ Some 9 }
    ensures tag { first_defect (3 ∷ 1 ∷ 1 ∷ 0x70 ∷ 4 ∷ []) 0 ≡ Some 4 }
    ensures skips { first_defect (3 ∷ 2 ∷ 1 ∷ 0x70 ∷ 0 ∷ 0 ∷ 0 ∷ 0 ∷ 0 ∷ 0 ∷ 0 ∷ 0 ∷ 0 ∷ 2 ∷ []) 0
        ≡ Some 9 }
    ensures large { first_defect (1 ∷ 0x40 ∷ 0 ∷ 0 ∷ 0 ∷ 0 ∷ 0 ∷ 0 ∷ 0 ∷ []) 0 ≡ Some 0 }
    ensures name { first_defect (2 ∷ 3 ∷ 0x61 ∷ 6 ∷ []) 0 ≡ Some 3 }
    ensures arity { first_defect (3 ∷ 0 ∷ 9 ∷ []) 0 ≡ Some 1 }
{}

/// The texts of a list that ends in a variable, and of a compound with a quoted name.
pub fn texts_of_terms()
    ensures list { text_of (compound_2 (codes ".") (variable 7)
        (compound_2 (codes ".") (variable 3) (variable 7))) [] ≡ codes "[_1,_2|_1]" }
    ensures quoted { text_of (compound_2 (codes "it's") (atom (codes "[]")) (atom (codes "A"))) []
        ≡ codes "'it\\'s'([],'A')" }
{}
