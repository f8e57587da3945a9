//! The six relations by which terms and values are compared.
ghost use Rattle.std.specs.Prelude.{◌≡◌, MatchOption, None};
ghost use Rattle.ml_search.specs.Builtins.{order_tests, value_tests};
ghost use Rattle.ml_search.specs.Names.{look_up};
ghost use Rattle.ml_builtin.specs.Tables.{order_name, value_name};
ghost use Rattle.ml_builtin.specs.inside.Meanings.{before_or_after, relation_test};

use ml_term::Name;
use std::cmp::Ordering;

/// How two terms, or two values, are to be to one another.
#[derive(Clone, Copy)]
pub enum Relation {
    /// `==` of terms, `=:=` of values.
    Equal,
    /// `\==` of terms, `=\=` of values.
    NotEqual,
    /// `@<` of terms, `<` of values.
    Less,
    /// `@=<` of terms, `=<` of values.
    LessOrEqual,
    /// `@>` of terms, `>` of values.
    Greater,
    /// `@>=` of terms, `>=` of values.
    GreaterOrEqual,
}

impl Relation {
    // The relation of terms of a name.
    pub(crate) fn of_terms(name: &Name) -> Option<Relation>
        ensures { MatchOption result (look_up order_tests name.now ≡ None)
            (λ relation. order_name relation ≡ name.now) }
    {
        let name = name.as_slice();
        if name == b"==".as_slice() {
            Some(Relation::Equal)
        } else if name == b"\\==".as_slice() {
            Some(Relation::NotEqual)
        } else {
            Relation::before_or_after(name)
        }
    }

    // The same of those by which one comes before the other.
    fn before_or_after(name: &[u8]) -> Option<Relation>
        ensures { MatchOption result (look_up before_or_after name.now ≡ None)
            (λ relation. order_name relation ≡ name.now) }
    {
        if name == b"@<".as_slice() {
            Some(Relation::Less)
        } else if name == b"@=<".as_slice() {
            Some(Relation::LessOrEqual)
        } else if name == b"@>".as_slice() {
            Some(Relation::Greater)
        } else if name == b"@>=".as_slice() {
            Some(Relation::GreaterOrEqual)
        } else {
            None
        }
    }

    // The relation of values of a name.
    pub(crate) fn of_values(name: &Name) -> Option<Relation>
        ensures { MatchOption result (look_up value_tests name.now ≡ None)
            (λ relation. value_name relation ≡ name.now) }
    {
        let name = name.as_slice();
        if name == b"=:=".as_slice() {
            Some(Relation::Equal)
        } else if name == b"=\\=".as_slice() {
            Some(Relation::NotEqual)
        } else if name == b"<".as_slice() {
            Some(Relation::Less)
        } else if name == b"=<".as_slice() {
            Some(Relation::LessOrEqual)
        } else if name == b">".as_slice() {
            Some(Relation::Greater)
        } else if name == b">=".as_slice() {
            Some(Relation::GreaterOrEqual)
        } else {
            None
        }
    }

    // Whether two that are in an order are so to one another.
    pub(crate) fn holds(self, order: Ordering) -> bool
        ensures { result ≡ relation_test self order }
    {
        match self {
            Relation::Equal => order.is_eq(),
            Relation::NotEqual => order.is_ne(),
            Relation::Less => order.is_lt(),
            Relation::LessOrEqual => order.is_le(),
            Relation::Greater => order.is_gt(),
            Relation::GreaterOrEqual => order.is_ge(),
        }
    }
}
