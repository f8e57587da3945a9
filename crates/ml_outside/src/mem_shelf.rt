//! A shelf in memory. It never fails, so both of its counts stay 0.
ghost use Rattle.std.specs.Prelude.{◌≡◌, Some};
ghost use Rattle.std.specs.FinMap as map;

use crate::{FetchStop, PutStop, Shelf};
use std::alloc::Global;
use std::collections::BTreeMap;
use std::marker::Model;

/// A shelf that holds what was put. Contracts see it as the finite map from names to bytes.
#[derive(Drop)]
pub struct MemShelf {
    files: BTreeMap<String, Vec<u8>>,
}

impl Model for MemShelf {
    ghost use Rattle.ml_outside.specs.Held.{Files};
    ghost use Rattle.ml_outside.specs.Memory.{files_of};
    ghost use Rattle.std.specs.FinMap as map;
    ghost use Rattle.std.specs.Coded.{coded_ℕ, coded_list};

    ghost Value = { Files };

    ghost coded = { map.code (coded_list coded_ℕ) (coded_list coded_ℕ) };

    ghost view = { λ shelf. files_of shelf.files.entries };
}

impl MemShelf {
    /// A shelf that holds nothing. It takes no memory.
    pub fn new(alloc: Global) -> Self
        ensures { result ≡ map.empty }
    {
        MemShelf {
            files: BTreeMap::new(alloc),
        }
    }
}

impl Shelf for MemShelf {
    ghost held = { λ shelf. Some shelf };

    ghost faults = { λ _. 0 };

    ghost put_faults = { λ _. 0 };

    fn fetch(&mut self, alloc: Global, name: &str, limit: usize) -> Result<Vec<u8>, FetchStop> {
        let Some(bytes) = self.files.get(name) else {
            return Err(FetchStop::Absent);
        };
        if bytes.len() > limit {
            return Err(FetchStop::TooLong);
        }
        Ok(bytes.to_vec(alloc)?)
    }

    fn put(&mut self, alloc: Global, name: &str, bytes: &[u8]) -> Result<(), PutStop> {
        let key = String::from_str(alloc, name)?;
        let copy = bytes.to_vec(alloc)?;
        self.files.insert(key, copy)?;
        Ok(())
    }
}

#[cfg(test)]
mod tests {
    use super::*;
    use crate::answers::is_same;
    use std::test::Fail;

    #[test]
    fn what_is_put_is_fetched_within_the_limit(rt: HostRuntime) -> Result<(), Fail> {
        let alloc = rt.alloc();
        let mut shelf = MemShelf::new(alloc);
        for (name, bytes) in [("a", "older"), ("b", ""), ("a", "newer text"), ("ab", "c")] {
            shelf.put(alloc, name, bytes.as_bytes())?;
        }
        for (name, limit, want) in [
            ("a", 10, Ok("newer text")),
            ("a", usize::MAX, Ok("newer text")),
            ("a", 9, Err(FetchStop::TooLong)),
            ("b", 0, Ok("")),
            ("ab", 1, Ok("c")),
            ("ab", 0, Err(FetchStop::TooLong)),
            ("c", 10, Err(FetchStop::Absent)),
            ("", 10, Err(FetchStop::Absent)),
        ] {
            let got = shelf.fetch(alloc, name, limit);
            assert!(rt; is_same(&got, want), "{name} up to {limit}");
        }
        Ok(())
    }
}
