// Files of the folder that the tests run in, and the faults of reading and putting.
use super::*;
use crate::answers::is_same;
use std::fs::Metadata;
use std::io;
use std::test::Fail;

#[test]
fn a_file_is_put_and_fetched_and_faults_are_counted(rt: HostRuntime) -> Result<(), Fail> {
    let alloc = rt.alloc();
    let mut shelf = DirShelf::new(&rt);
    let name = "a_file_of_this_test";
    shelf.put(alloc, name, b"longer than what comes")?;
    shelf.put(alloc, name, b"five\n")?;
    for (name, limit, want) in [
        (name, 5, Ok("five\n")),
        (name, usize::MAX, Ok("five\n")),
        (name, 4, Err(FetchStop::TooLong)),
        ("a_file_that_is_not", 5, Err(FetchStop::Absent)),
        (".", 5, Err(FetchStop::Failed)),
        ("a_file_of_this_test/below", 5, Err(FetchStop::Failed)),
    ] {
        let got = shelf.fetch(alloc, name, limit);
        assert!(rt; is_same(&got, want), "{name} up to {limit}");
    }
    assert_eq!(rt; shelf.put(alloc, ".", b"five\n"), Err(PutStop::Failed));
    assert_eq!(rt; (shelf.faults, shelf.put_faults), (2, 1));

    for (left, want) in [(5, Ok("xxxxx")), (4, Err(FetchStop::Failed))] {
        let about = fs::metadata(&rt, name)?;
        let got = read_open(alloc, CutShort { about, left }, 9);
        assert!(rt; is_same(&got, want), "{left} of 5 bytes");
    }
    fs::remove_file(&rt, name)?;
    Ok(())
}

// A file of which the system tells a length, and which gives this many bytes, one at a time.
#[derive(Drop)]
struct CutShort {
    about: Metadata,
    left: usize,
}

impl Read for CutShort {
    fn read(&mut self, buf: &mut [u8]) -> io::Result<usize> {
        if self.left == 0 || buf.is_empty() {
            return Ok(0);
        }
        self.left -= 1;
        buf[0] = b'x';
        Ok(1)
    }
}

impl OpenFile for CutShort {
    fn metadata(&self) -> io::Result<Metadata> {
        Ok(self.about.clone()?)
    }

    fn set_len(&self, _size: u64) -> io::Result<()> {
        Ok(())
    }

    fn sync_all(&self) -> io::Result<()> {
        Ok(())
    }

    fn sync_data(&self) -> io::Result<()> {
        Ok(())
    }
}
