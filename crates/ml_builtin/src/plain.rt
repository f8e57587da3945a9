//! The plain built-ins, found by name and arity.
ghost use Rattle.std.specs.Prelude.{◌≡◌, MatchOption, None, false};
ghost use Rattle.ml_search.specs.Builtins.{builtins_2, builtins_3, is_plain, order_tests};
ghost use Rattle.ml_search.specs.Builtins.{value_tests};
ghost use Rattle.ml_search.specs.Names.{look_up};
ghost use Rattle.ml_builtin.specs.Tables.{binary_name, plain_arity, plain_name, ternary_name};
ghost use Rattle.ml_builtin.specs.inside.Meanings.{IsNoBinary};

use crate::relation::Relation;
use crate::type_test::TypeTest;
use ml_term::Name;

/// A plain built-in, which needs neither the program nor the lists.
#[derive(Clone, Copy)]
pub enum Plain {
    /// One of one argument.
    One(TypeTest),
    /// One of two arguments.
    Two(Binary),
    /// One of three arguments.
    Three(Ternary),
}

/// A plain built-in of two arguments.
#[derive(Clone, Copy)]
pub enum Binary {
    /// `=`
    Unify,
    /// `\=`
    NotUnifiable,
    /// `=..`
    Univ,
    /// `copy_term`
    CopyTerm,
    /// `is`
    Is,
    /// A relation of two terms by the standard order.
    Order(Relation),
    /// A relation of the values of two expressions.
    Value(Relation),
}

/// A plain built-in of three arguments.
#[derive(Clone, Copy)]
pub enum Ternary {
    /// `functor`
    Functor,
    /// `arg`
    Arg,
}

impl Plain {
    /// The plain built-in of a name and an arity, if there is one. It takes no memory.
    pub fn of(name: &Name, arity: u8) -> Option<Plain>
        ensures { MatchOption result (is_plain name.now arity ≡ false)
            (λ plain. (plain_name plain ≡ name.now) × (plain_arity plain ≡ arity)) }
    {
        if arity == 1 {
            return Plain::of_one(name);
        }
        if arity == 2 {
            return Plain::of_two(name);
        }
        if arity == 3 {
            return Plain::of_three(name);
        }
        None
    }

    // The one of one argument.
    fn of_one(name: &Name) -> Option<Plain>
        ensures { MatchOption result (is_plain name.now 1 ≡ false)
            (λ plain. (plain_name plain ≡ name.now) × (plain_arity plain ≡ 1)) }
    {
        match TypeTest::of(name) {
            Some(test) => Some(Plain::One(test)),
            None => None,
        }
    }

    // The one of two arguments.
    fn of_two(name: &Name) -> Option<Plain>
        ensures { MatchOption result (is_plain name.now 2 ≡ false)
            (λ plain. (plain_name plain ≡ name.now) × (plain_arity plain ≡ 2)) }
    {
        match Binary::of(name) {
            Some(binary) => Some(Plain::Two(binary)),
            None => None,
        }
    }

    // The one of three arguments.
    fn of_three(name: &Name) -> Option<Plain>
        ensures { MatchOption result (is_plain name.now 3 ≡ false)
            (λ plain. (plain_name plain ≡ name.now) × (plain_arity plain ≡ 3)) }
    {
        match Ternary::of(name) {
            Some(ternary) => Some(Plain::Three(ternary)),
            None => None,
        }
    }

    /// How many arguments it takes, 1 to 3. It takes no memory.
    pub fn arity(self) -> u8
        ensures { result ≡ plain_arity self }
    {
        match self {
            Plain::One(_) => 1,
            Plain::Two(_) => 2,
            Plain::Three(_) => 3,
        }
    }
}

impl Binary {
    // The built-in of two arguments of a name.
    fn of(name: &Name) -> Option<Binary>
        ensures { MatchOption result (IsNoBinary name.now)
            (λ binary. binary_name binary ≡ name.now) }
    {
        match Binary::without_relation(name) {
            Some(binary) => Some(binary),
            None => match Relation::of_terms(name) {
                Some(relation) => Some(Binary::Order(relation)),
                None => match Relation::of_values(name) {
                    Some(relation) => Some(Binary::Value(relation)),
                    None => None,
                },
            },
        }
    }

    // The same of those that are no relations.
    fn without_relation(name: &Name) -> Option<Binary>
        ensures { MatchOption result (look_up builtins_2 name.now ≡ None)
            (λ binary. binary_name binary ≡ name.now) }
    {
        let name = name.as_slice();
        if b"=".as_slice() == name {
            Some(Binary::Unify)
        } else if b"\\=".as_slice() == name {
            Some(Binary::NotUnifiable)
        } else if b"=..".as_slice() == name {
            Some(Binary::Univ)
        } else if b"copy_term".as_slice() == name {
            Some(Binary::CopyTerm)
        } else if b"is".as_slice() == name {
            Some(Binary::Is)
        } else {
            None
        }
    }
}

impl Ternary {
    // The built-in of three arguments of a name.
    fn of(name: &Name) -> Option<Ternary>
        ensures { MatchOption result (look_up builtins_3 name.now ≡ None)
            (λ ternary. ternary_name ternary ≡ name.now) }
    {
        let name = name.as_slice();
        if b"functor".as_slice() == name {
            Some(Ternary::Functor)
        } else if b"arg".as_slice() == name {
            Some(Ternary::Arg)
        } else {
            None
        }
    }
}
