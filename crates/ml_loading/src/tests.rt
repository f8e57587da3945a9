//! That first lists are made while there is memory. Items come into them in the tests of runs.

use crate::first_lists;
use ml_search::Decls;
use ml_term::{Decl, Kind, Name, Pred};
use std::test::Fail;

#[test]
fn each_declaration_has_a_list(rt: HostRuntime) -> Result<(), Fail> {
    let alloc = rt.alloc();
    let pred = Pred {
        name: Name::new(alloc, b"p")?,
        arity: 1,
    };
    let mut decls = Decls::new(alloc);
    decls.add(Decl::with_default_keys(alloc, pred, Kind::Relation)?)?;
    let lists = first_lists(alloc, &decls, Vec::new(alloc))?;
    assert_eq!(rt; lists.len(), 1);
    assert!(rt; lists[0].as_slice().is_empty());
    Ok(())
}
