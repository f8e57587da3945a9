//! Laws of scripts. Each function does nothing; its contract is the law.
ghost use Rattle.std.specs.Prelude.{◌≡◌, ◌<◌, ◌^◌, ◌⊎◌, ℕ, List, length};
ghost use Rattle.ml_search.specs.Program.{Script};
ghost use Rattle.ml_reader.specs.Lexemes.{ReadClause};
ghost use Rattle.ml_reader.specs.Scripts.{BeginsScript, IsFirstWrong, IsScriptOf};
ghost use Rattle.ml_reader.specs.ScriptTexts.{HasScriptFault, IsScript};
ghost use Rattle.ml_reader.specs.declared.fault.ReadFault.{ReadFault};

/// Clauses are at most one script.
pub fn clauses_are_one_script()
    ensures { (cs : List ReadClause) (s t : Script) → IsScriptOf cs s → IsScriptOf cs t → s ≡ t }
{}

/// Clauses are a script, or one of them is the first with which no script goes on.
pub fn clauses_are_a_script_or_go_wrong()
    ensures either { (cs : List ReadClause) → ((s : Script) × IsScriptOf cs s)
        ⊎ ((w : ReadClause) × IsFirstWrong cs w) }
    ensures not_both { (cs : List ReadClause) (s : Script) (w : ReadClause) → IsScriptOf cs s
        → IsFirstWrong cs w → ⊥ }
    ensures once { (cs : List ReadClause) (v w : ReadClause) → IsFirstWrong cs v → IsFirstWrong cs w
        → v ≡ w }
{}

/// The clauses with which a script begins are a script.
pub fn a_script_begins_with_scripts()
    ensures { (cs : List ReadClause) → BeginsScript cs → (s : Script) × IsScriptOf cs s }
{}

/// A text is at most one script, and has at most one first fault as a script, but not both; a text
/// of fewer than 4294967296 bytes is or has one of them.
pub fn a_text_is_one_script_or_has_one_fault()
    ensures script { (bytes : List ℕ) (s t : Script) → IsScript bytes s → IsScript bytes t → s ≡ t }
    ensures fault { (bytes : List ℕ) (f g : ReadFault) → HasScriptFault bytes f
        → HasScriptFault bytes g → f ≡ g }
    ensures not_both { (bytes : List ℕ) (s : Script) (f : ReadFault) → IsScript bytes s
        → HasScriptFault bytes f → ⊥ }
    ensures either { (bytes : List ℕ) → length bytes < 2 ^ 32 → ((s : Script) × IsScript bytes s)
        ⊎ ((f : ReadFault) × HasScriptFault bytes f) }
{}
