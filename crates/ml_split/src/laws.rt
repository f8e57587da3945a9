//! Laws of the rule of a split. The function does nothing: its contract is the laws.
ghost use Rattle.std.specs.Prelude.{◌≡◌, ◌<◌, Bool, IsTrue, List, length};
ghost use Rattle.std.specs.List.{All};
ghost use Rattle.ml_bits.specs.BitList.{Begins};
ghost use Rattle.ml_split.specs.Splitting.{AreApart, IsFair, IsSplit, goes_on_by};

/// The rule of a split ends, at one prefix alone, and that split is fair.
/// `ends`, `one`: for any keys, from any prefix. `fair`: where no key begins another one, all begin
/// with the old prefix, and there is more than one.
pub fn splits_are_fair()
    ensures ends { (keys : List (List Bool)) (old : List Bool) →
        (bits : List Bool) × IsTrue (goes_on_by keys old bits) }
    ensures one { (keys : List (List Bool)) (old first second : List Bool) →
        IsSplit keys old first → IsSplit keys old second → first ≡ second }
    ensures fair { (keys : List (List Bool)) (old new : List Bool) → 1 < length keys →
        AreApart keys → All (Begins old) keys →
        IsSplit keys old new → IsFair keys old new }
{}
