// Tables of tokens and faults, with their places.
use crate::scan::next_token;
use crate::tokens::{Token, TokenFault, TokenFaultKind, TokenKind};
use crate::values::{name_text, number_value};
use std::process::Abort;
use std::test::Fail;

fn is_token(rt: &impl Abort, text: &[u8], kind: TokenKind, from: usize, to: usize) {
    assert_eq!(rt;
        next_token(text, 0),
        Ok(Token { kind, from, to }),
        "{text:?}"
    );
}

fn is_fault(rt: &impl Abort, text: &[u8], kind: TokenFaultKind, place: usize) {
    assert_eq!(rt;
        next_token(text, 0),
        Err(TokenFault { place, kind }),
        "{text:?}"
    );
}

#[test]
fn every_kind_of_token_has_its_place(rt: HostRuntime) {
    let table: [(&[u8], TokenKind, usize, usize); 55] = [
        (b"abc_1X(", TokenKind::Name, 0, 6),
        (b"  z", TokenKind::Name, 2, 3),
        (b"a.b", TokenKind::Name, 0, 1),
        (b":- a", TokenKind::Name, 0, 2),
        (b"=..(", TokenKind::Name, 0, 3),
        (b"+.\n", TokenKind::Name, 0, 2),
        (b"...", TokenKind::Name, 0, 3),
        (b".(", TokenKind::Name, 0, 1),
        (b"./* c */", TokenKind::Name, 0, 3),
        (b"*/a", TokenKind::Name, 0, 2),
        (b"+-*/\\^<>=~:.?@#&$a", TokenKind::Name, 0, 17),
        (b"!!", TokenKind::Name, 0, 1),
        (b";;", TokenKind::Name, 0, 1),
        (b"a/* b", TokenKind::Name, 0, 1),
        (b"''", TokenKind::QuotedName, 0, 2),
        (b" 'a b'c", TokenKind::QuotedName, 1, 6),
        (b"'it''s'", TokenKind::QuotedName, 0, 7),
        (b"''''(", TokenKind::QuotedName, 0, 4),
        (
            b"'\\a\\b\\t\\n\\v\\f\\r\\\\\\'\\\"\\`'",
            TokenKind::QuotedName,
            0,
            24,
        ),
        (b"X", TokenKind::Variable, 0, 1),
        (b"_ ", TokenKind::Variable, 0, 1),
        (b"_a1-", TokenKind::Variable, 0, 3),
        (b"\nAb_9=", TokenKind::Variable, 1, 5),
        (b"0", TokenKind::Number, 0, 1),
        (b"007x", TokenKind::Number, 0, 3),
        (b"2305843009213693952", TokenKind::Number, 0, 19),
        (
            b"0000000000000000000000000000000000000000000000000000000000001.",
            TokenKind::Number,
            0,
            61,
        ),
        (b"1.5", TokenKind::Number, 0, 1),
        (b"(a", TokenKind::Punct, 0, 1),
        (b")a", TokenKind::Punct, 0, 1),
        (b"[a", TokenKind::Punct, 0, 1),
        (b"]a", TokenKind::Punct, 0, 1),
        (b"{a", TokenKind::Punct, 0, 1),
        (b"}a", TokenKind::Punct, 0, 1),
        (b",a", TokenKind::Punct, 0, 1),
        (b"|a", TokenKind::Punct, 0, 1),
        (b".", TokenKind::End, 0, 1),
        (b".\n", TokenKind::End, 0, 1),
        (b". ", TokenKind::End, 0, 1),
        (b".\t", TokenKind::End, 0, 1),
        (b".\r", TokenKind::End, 0, 1),
        (b".\x0c", TokenKind::End, 0, 1),
        (b".%", TokenKind::End, 0, 1),
        (b"", TokenKind::Eof, 0, 0),
        (b" \t\n\r\x0c", TokenKind::Eof, 5, 5),
        (b"% c", TokenKind::Eof, 3, 3),
        (b"/* c */", TokenKind::Eof, 7, 7),
        (b"% c\na", TokenKind::Name, 4, 5),
        (b"/* a /* b */ c */", TokenKind::Name, 13, 14),
        (b"/**/x", TokenKind::Name, 4, 5),
        (b"/***/x", TokenKind::Name, 5, 6),
        (b"/*/*/x", TokenKind::Name, 5, 6),
        (b"%/*\nx", TokenKind::Name, 4, 5),
        (b"/*%*/x", TokenKind::Name, 5, 6),
        (b"/*\n%*/%\r\n /* * / */\tx", TokenKind::Name, 20, 21),
    ];
    for (text, kind, from, to) in table {
        is_token(&rt, text, kind, from, to);
    }
}

#[test]
fn every_fault_has_its_place(rt: HostRuntime) {
    let table: [(&[u8], TokenFaultKind, usize); 26] = [
        (b"\x00", TokenFaultKind::BadCharacter, 0),
        (b" \x80a", TokenFaultKind::BadCharacter, 1),
        (b"'ab\x01'", TokenFaultKind::BadCharacter, 3),
        (b"'\t'", TokenFaultKind::BadCharacter, 1),
        (b"'\x7f'", TokenFaultKind::BadCharacter, 1),
        (b"'''\xff", TokenFaultKind::BadCharacter, 3),
        (b"'abc", TokenFaultKind::OpenQuote, 0),
        (b" 'a\nb'", TokenFaultKind::OpenQuote, 1),
        (b"'a\\", TokenFaultKind::OpenQuote, 0),
        (b"'", TokenFaultKind::OpenQuote, 0),
        (b"'''", TokenFaultKind::OpenQuote, 0),
        (b"/*", TokenFaultKind::OpenComment, 0),
        (b"/*/", TokenFaultKind::OpenComment, 0),
        (b" /* x *", TokenFaultKind::OpenComment, 1),
        (b"% a\n/* b", TokenFaultKind::OpenComment, 4),
        (b"/* */ /*+", TokenFaultKind::OpenComment, 6),
        (b"'\\q'", TokenFaultKind::BadEscape, 1),
        (b"'ab\\\n'", TokenFaultKind::BadEscape, 3),
        (b" '\\n\\0'", TokenFaultKind::BadEscape, 4),
        (b"'\\ '", TokenFaultKind::BadEscape, 1),
        (b"2305843009213693953", TokenFaultKind::NumberTooLarge, 0),
        (
            b" 99999999999999999999999999999999999999999",
            TokenFaultKind::NumberTooLarge,
            1,
        ),
        (b"18446744073709551616", TokenFaultKind::NumberTooLarge, 0),
        (b"0023058430092136939520", TokenFaultKind::NumberTooLarge, 0),
        (b"\"a\"", TokenFaultKind::LeftOutQuote, 0),
        (b" `", TokenFaultKind::LeftOutQuote, 1),
    ];
    for (text, kind, place) in table {
        is_fault(&rt, text, kind, place);
    }
}

// What each byte alone gives: n a name, v a variable, d a number, p a bracket or the like, e an
// end, w nothing up to the end of the text, q an open quote, l a quote that is left out, b a bad
// character.
const ALONE: &[u8; 256] =
    b"bbbbbbbbbwwbwwbbbbbbbbbbbbbbbbbbwnlnnwnqppnnpnenddddddddddnnnnnnnvvvvvvvvvvvvvvvvvvvvvvvvvvpnpnvlnnnnnnnnnnnnnnnnnnnnnnnnnnpppnbbbbbbbbbbbbbbbbbbbbbbbbbbbbbbbbbbbbbbbbbbbbbbbbbbbbbbbbbbbbbbbbbbbbbbbbbbbbbbbbbbbbbbbbbbbbbbbbbbbbbbbbbbbbbbbbbbbbbbbbbbbbbbbbb";

#[test]
fn each_byte_alone(rt: HostRuntime) {
    for b in 0..=255u8 {
        let text = [b];
        match ALONE[usize::from(b)] {
            b'n' => is_token(&rt, &text, TokenKind::Name, 0, 1),
            b'v' => is_token(&rt, &text, TokenKind::Variable, 0, 1),
            b'd' => is_token(&rt, &text, TokenKind::Number, 0, 1),
            b'p' => is_token(&rt, &text, TokenKind::Punct, 0, 1),
            b'e' => is_token(&rt, &text, TokenKind::End, 0, 1),
            b'w' => is_token(&rt, &text, TokenKind::Eof, 1, 1),
            b'q' => is_fault(&rt, &text, TokenFaultKind::OpenQuote, 0),
            b'l' => is_fault(&rt, &text, TokenFaultKind::LeftOutQuote, 0),
            _ => is_fault(&rt, &text, TokenFaultKind::BadCharacter, 0),
        }
    }
}

#[test]
fn comments_hold_any_bytes(rt: HostRuntime) {
    for b in 0..=255u8 {
        is_token(
            &rt,
            &[b'/', b'*', b, b'*', b'/', b'x'],
            TokenKind::Name,
            5,
            6,
        );
        is_token(&rt, &[b'%', b, b'\n', b'x'], TokenKind::Name, 3, 4);
    }
}

#[test]
fn names_end_at_their_limit(rt: HostRuntime) {
    is_token(&rt, &[b'a'; 255], TokenKind::Name, 0, 255);
    is_fault(&rt, &[b'a'; 256], TokenFaultKind::NameTooLong, 0);
    is_token(&rt, &[b'+'; 255], TokenKind::Name, 0, 255);
    is_fault(&rt, &[b'+'; 256], TokenFaultKind::NameTooLong, 0);
    is_token(&rt, &[b'_'; 255], TokenKind::Variable, 0, 255);
    is_fault(&rt, &[b'_'; 256], TokenFaultKind::NameTooLong, 0);
    // Two quotes spell one byte.
    is_token(&rt, &[b'\''; 512], TokenKind::QuotedName, 0, 512);
    is_fault(&rt, &[b'\''; 514], TokenFaultKind::NameTooLong, 0);
}

#[test]
fn a_defect_comes_before_the_byte_that_is_too_much(rt: HostRuntime) {
    let mut text = [b'a'; 258];
    text[0] = b'\'';
    is_fault(&rt, &text, TokenFaultKind::NameTooLong, 0);
    text[256] = b'\\';
    is_fault(&rt, &text, TokenFaultKind::NameTooLong, 0);
    text[257] = b'q';
    is_fault(&rt, &text, TokenFaultKind::BadEscape, 256);
    text[256] = 200;
    is_fault(&rt, &text, TokenFaultKind::BadCharacter, 256);
    text[256] = b'\n';
    is_fault(&rt, &text, TokenFaultKind::OpenQuote, 0);
    text[256] = b'\'';
    is_token(&rt, &text, TokenKind::QuotedName, 0, 257);
}

#[test]
fn tokens_follow_one_another(rt: HostRuntime) {
    let text = b"p(X) :- 'q r'. % end".as_slice();
    let ends = [1, 2, 3, 4, 7, 13, 14, 20, 20];
    let mut at = 0;
    for end in ends {
        assert!(rt; at <= text.len());
        let token = next_token(text, at);
        assert_eq!(rt; token.map(|t| t.to), Ok(end));
        at = end;
    }
}

#[test]
fn values_of_tokens(rt: HostRuntime) -> Result<(), Fail> {
    let text = b"'it''s\\n' bare 0042".as_slice();
    let quoted = Token {
        kind: TokenKind::QuotedName,
        from: 0,
        to: 9,
    };
    let bare = Token {
        kind: TokenKind::Name,
        from: 10,
        to: 14,
    };
    let number = Token {
        kind: TokenKind::Number,
        from: 15,
        to: 19,
    };
    assert_eq!(rt;
        name_text(rt.alloc(), text, &quoted)?.as_slice(),
        b"it's\n".as_slice()
    );
    assert_eq!(rt;
        name_text(rt.alloc(), text, &bare)?.as_slice(),
        b"bare".as_slice()
    );
    assert_eq!(rt; number_value(text, &number), 42);
    Ok(())
}
