//! That words of each command are read while there is memory, and others aren't.

use ml_words::{Named, Words, WordsStop, read_words};
use std::test::Fail;

#[test]
fn words_of_sessions_are_read(rt: HostRuntime) -> Result<(), Fail> {
    let words = [
        "run",
        "s=",
        "--save=im",
        "a",
        "--image",
        "x",
        "--",
        "--",
        "--save",
    ];
    match read_words(rt.alloc(), &words) {
        Ok(
            Words::Sessions {
                threads,
                rules,
                image,
                save,
                scripts,
            },
        ) => {
            assert!(rt; threads);
            assert_eq!(rt; rules, 1);
            assert_eq!(rt; image, Some(Named { word: 5, from: 0 }));
            assert_eq!(rt; save, Some(Named { word: 2, from: 7 }));
            assert!(rt; scripts.as_slice() == [3, 7, 8].as_slice());
        }
        _other => assert!(rt; false),
    }
    Ok(())
}

#[test]
fn words_of_a_check_and_of_a_made_run_are_read(rt: HostRuntime) -> Result<(), Fail> {
    let alloc = rt.alloc();
    let check = read_words(alloc, &["check", "rules.pl", "im"]);
    assert!(rt; matches!(&check, Ok(Words::Check { rules: 1, image: 2 })));
    let made = read_words(alloc, &["make", "00007"]);
    assert!(rt; matches!(&made, Ok(Words::Make(7))));
    Ok(())
}

#[test]
fn other_words_are_bad(rt: HostRuntime) -> Result<(), Fail> {
    let alloc = rt.alloc();
    let lists: [&[&str]; 8] = [
        &[],
        &["serial"],
        &["serial", "--help"],
        &["run", "--image"],
        &["run", "--image=a", "--image=b", "r"],
        &["check", "r"],
        &["make", "0"],
        &["make", "000007"],
    ];
    for words in lists {
        assert!(rt; matches!(&read_words(alloc, words), Err(WordsStop::Bad)));
    }
    Ok(())
}
