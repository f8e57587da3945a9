//! Laws of homes among any prefixes. The functions do nothing: their contracts are the laws.
ghost use Rattle.std.specs.Prelude.{◌≡◌, ◌≢◌, ◌⊎◌, ℕ, Bool, Contains, IsTrue, List, Option, []};
ghost use Rattle.ml_bits.specs.BitList.{Begins};
ghost use Rattle.ml_home.specs.Homes.{Divides, HasCome, IsAbove, IsHome};
ghost use Rattle.ml_region.specs.Prefixes.{IsOwner, IsParent, bits_at};
ghost use Rattle.ml_term.specs.Patterns.{fits, may_hold};

/// Each key has one home where the empty prefix is among the prefixes.
/// `owner`, `parent`: the home is the prefix at the owner's place, and so it is with the parent of
/// a prefix. `fits`: the home of a key that fits a pattern may hold such keys.
pub fn each_key_has_one_home()
    ensures some { (prefixes : List (List Bool)) (key : List Bool) → Contains prefixes [] →
        (home : List Bool) × IsHome prefixes key home }
    ensures one { (prefixes : List (List Bool)) (key first second : List Bool) →
        IsHome prefixes key first → IsHome prefixes key second → first ≡ second }
    ensures owner { (prefixes : List (List Bool)) (key : List Bool) (i : ℕ) →
        IsOwner prefixes key i → IsHome prefixes key (bits_at prefixes i) }
    ensures parent { (prefixes : List (List Bool)) (prefix : List Bool) (i : ℕ) →
        IsParent prefixes prefix i → IsAbove prefixes prefix (bits_at prefixes i) }
    ensures fits { (prefixes : List (List Bool)) (key home : List Bool)
        (pattern : List (Option (List Bool))) → IsHome prefixes key home →
        IsTrue (fits pattern key) → IsTrue (may_hold pattern home) }
{}

/// A prefix comes that divides a home.
/// `taken`: the home's keys that begin with it are at home in it. `stays`: all other keys stay
/// where they were. `only`: nothing else is at home anywhere.
pub fn homes_after_a_new_prefix()
    ensures taken { (old new : List (List Bool)) (home prefix : List Bool) →
        HasCome old new prefix → Divides old home prefix → (key : List Bool) →
        IsHome old key home → Begins prefix key → IsHome new key prefix }
    ensures stays { (old new : List (List Bool)) (home prefix : List Bool) →
        HasCome old new prefix → Divides old home prefix → (key at : List Bool) →
        IsHome old key at → (at ≡ home → Begins prefix key → ⊥) → IsHome new key at }
    ensures only { (old new : List (List Bool)) (home prefix : List Bool) →
        HasCome old new prefix → Divides old home prefix → (key at : List Bool) →
        IsHome new key at →
        ((at ≡ prefix) × IsHome old key home × Begins prefix key) ⊎ IsHome old key at }
{}

/// A prefix goes.
/// `taken`: what was at home in it is at home in its parent. `stays`: what wasn't stays where it
/// was. `only`: what is at home somewhere was there, or in the prefix that went.
pub fn homes_after_a_prefix_goes()
    ensures taken { (old new : List (List Bool)) (prefix parent : List Bool) →
        HasCome new old prefix → IsAbove old prefix parent → (key : List Bool) →
        IsHome old key prefix → IsHome new key parent }
    ensures stays { (old new : List (List Bool)) (prefix : List Bool) → HasCome new old prefix →
        (key at : List Bool) → IsHome old key at → at ≢ prefix → IsHome new key at }
    ensures only { (old new : List (List Bool)) (prefix : List Bool) → HasCome new old prefix →
        Contains old [] → (key at : List Bool) → IsHome new key at →
        IsHome old key prefix ⊎ IsHome old key at }
{}

/// The parent of a prefix where another comes that divides a home.
/// `new`: the parent of the new one is the home that it divides. `only`: the parent of any other
/// was its parent before, or is the new one, and then its parent was that home.
pub fn parents_after_a_new_prefix()
    ensures new { (old new : List (List Bool)) (home prefix : List Bool) →
        HasCome old new prefix → Divides old home prefix → IsAbove new prefix home }
    ensures only { (old new : List (List Bool)) (home prefix : List Bool) →
        HasCome old new prefix → Divides old home prefix → (below above : List Bool) →
        Contains old below → IsAbove new below above →
        ((above ≡ prefix) × IsAbove old below home) ⊎ IsAbove old below above }
{}
