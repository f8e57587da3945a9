//! Laws of rules. Each function does nothing; its contract is the law.
ghost use Rattle.std.specs.Prelude.{◌≡◌, ◌<◌, ◌^◌, ◌⊎◌, ℕ, List, length};
ghost use Rattle.ml_reader.specs.Declarations.{Declares};
ghost use Rattle.ml_reader.specs.Lexemes.{ReadClause};
ghost use Rattle.ml_reader.specs.Rules.{AreRules, IsRules, RulesGoWrong, RulesHaveFault};
ghost use Rattle.ml_reader.specs.declared.fault.ReadFault.{ReadFault};
ghost use Rattle.ml_search.specs.Program.{Program};
ghost use Rattle.ml_term.specs.Tree.{Tree};
ghost use Rattle.ml_term.specs.declared.declaration.Decl.{Decl};

/// A term declares at most one predicate, in one way.
pub fn a_term_declares_once()
    ensures { (t : Tree) (d e : Decl) → Declares t d → Declares t e → d ≡ e }
{}

/// Clauses are rules of at most one program with one list of items.
pub fn clauses_are_one_program()
    ensures { (cs : List ReadClause) (p q : Program) (items others : List (ℕ × Tree))
        → AreRules cs p items → AreRules cs q others → (p ≡ q) × (items ≡ others) }
{}

/// Clauses are rules, or they go wrong first at one place and in one way.
pub fn clauses_are_rules_or_go_wrong()
    ensures either { (cs : List ReadClause) → ((p : Program) × (items : List (ℕ × Tree))
        × AreRules cs p items) ⊎ ((f : ReadFault) × RulesGoWrong cs f) }
    ensures not_both { (cs : List ReadClause) (p : Program) (items : List (ℕ × Tree))
        (f : ReadFault) → AreRules cs p items → RulesGoWrong cs f → ⊥ }
    ensures once { (cs : List ReadClause) (f g : ReadFault) → RulesGoWrong cs f → RulesGoWrong cs g
        → f ≡ g }
{}

/// A text is rules of at most one program with one list of items, and has at most one first fault
/// as rules, but not both; a text of fewer than 4294967296 bytes is or has one of them.
pub fn a_text_is_one_program_or_has_one_fault()
    ensures rules { (bytes : List ℕ) (p q : Program) (items others : List (ℕ × Tree))
        → IsRules bytes p items → IsRules bytes q others → (p ≡ q) × (items ≡ others) }
    ensures fault { (bytes : List ℕ) (f g : ReadFault) → RulesHaveFault bytes f
        → RulesHaveFault bytes g → f ≡ g }
    ensures not_both { (bytes : List ℕ) (p : Program) (items : List (ℕ × Tree)) (f : ReadFault)
        → IsRules bytes p items → RulesHaveFault bytes f → ⊥ }
    ensures either { (bytes : List ℕ) → length bytes < 2 ^ 32
        → ((p : Program) × (items : List (ℕ × Tree)) × IsRules bytes p items)
        ⊎ ((f : ReadFault) × RulesHaveFault bytes f) }
{}
