//! Laws of words. Each function does nothing; its contract is the law.
ghost use Rattle.std.specs.Prelude.{◌≡◌, ◌+◌, ◌≤◌, ℕ, Bool, IsTrue, List, [], ◌∷◌, Option, Some};
ghost use Rattle.std.specs.Prelude.{codes, length};
ghost use Rattle.std.specs.List.{list_all};
ghost use Rattle.ml_words.specs.Forms.{check, command_of, make, made_number, sessions};
ghost use Rattle.ml_words.specs.InOrder.{is_plain_name, name_from, option_is_plain, places_from};
ghost use Rattle.ml_words.specs.InOrder.{rules_place, sessions_in_order, words_of_option};
ghost use Rattle.ml_words.specs.Limits.{max_scripts};

/// Words in the order of the table of commands, whose names aren't empty and don't begin with `-`,
/// are always of the form, and each name is found at its place. `clap`'s own definitions say what
/// it takes; this is what they come to on such words.
pub fn words_in_order_are_of_the_form()
    ensures sessions { (threads : Bool) (image save : Option (List ℕ)) (rules : List ℕ)
        (scripts : List (List ℕ)) → IsTrue (option_is_plain image)
        → IsTrue (option_is_plain save) → IsTrue (is_plain_name rules)
        → IsTrue (list_all is_plain_name scripts) → length scripts ≤ max_scripts →
        command_of (sessions_in_order threads image save rules scripts)
        ≡ Some (sessions threads (rules_place image save) (name_from 1 image)
        (name_from (1 + words_of_option image) save)
        (places_from (rules_place image save + 1) (length scripts))) }
    ensures check { (rules image : List ℕ) → IsTrue (is_plain_name rules)
        → IsTrue (is_plain_name image) →
        command_of (codes "check" ∷ rules ∷ image ∷ []) ≡ Some (check 1 2) }
    ensures make { (number : List ℕ) (n : ℕ) → made_number number ≡ Some n →
        command_of (codes "make" ∷ number ∷ []) ≡ Some (make n) }
{}
