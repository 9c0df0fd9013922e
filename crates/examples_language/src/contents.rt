//! Worked examples: what single tokens stand for, and where places lie.

use rr_lexer::{
    Kind, Token, freezes_literals, int_value, lex, line_and_column, name, text_contents, word,
};
use std::test::Fail;

const VALUES: [(&[u8], Option<u64>); 10] = [
    (b"0", Some(0)),
    (b"1_000", Some(1000)),
    (b"0x1f", Some(31)),
    (b"0xFF_ff", Some(65535)),
    (b"0b1_0", Some(2)),
    (b"0o17", Some(15)),
    (b"9223372036854775808", Some(9_223_372_036_854_775_808)),
    (b"9223372036854775809", None),
    (b"007", None),
    (b"1a", None),
];

/// A token that spans a whole source.
fn spanning(source: &[u8], kind: Kind) -> Token {
    let end = u32::try_from(source.len()).unwrap_or(0);
    Token {
        start: 0,
        end,
        kind,
        blank: false,
    }
}

fn whole(source: &[u8]) -> Token {
    spanning(source, Kind::Int)
}

#[test]
fn numbers_have_their_values(rt: HostRuntime) -> Result<(), Fail> {
    for (source, want) in VALUES {
        assert_eq!(rt; int_value(source, whole(source)), want);
    }
    Ok(())
}

const CONTENTS: [(&[u8], &[u8]); 12] = [
    (b"\"\"", b""),
    (b"\"a b\"", b"a b"),
    (b"\"\\n\\t\\r\\e\\s\"", b"\n\t\r\x1b "),
    (b"\"\\\"\\\\\\#{\\_\"", b"\"\\#{_"),
    (b"\"a\r\nb\rc\"", b"a\nb\rc"),
    (b"\"a\\\xc3\xa9\"", b"a\xc3\xa9"),
    (b"\"a# #b#{", b"a# #b"),
    (b"}c\"", b"c"),
    (b"'a\\nb'", b"a\\nb"),
    (b"'\\\\\\''", b"\\'"),
    (b"'a\r\nb'", b"a\nb"),
    (b"abc", b""),
];

#[test]
fn texts_have_their_contents(rt: HostRuntime) -> Result<(), Fail> {
    for (source, want) in CONTENTS {
        assert_eq!(rt;
            text_contents(rt.alloc(), source, whole(source))?.as_slice(),
            want
        );
    }
    Ok(())
}

#[test]
fn places_and_words_are_those_of_the_source(rt: HostRuntime) -> Result<(), Fail> {
    assert_eq!(rt; line_and_column(b"ab\nc", 0), (1, 1));
    assert_eq!(rt; line_and_column(b"ab\nc", 3), (2, 1));
    assert_eq!(rt; line_and_column(b"ab\nc", 9), (2, 2));
    assert_eq!(rt; word(b"ab", whole(b"a")), b"a".as_slice());
    assert_eq!(rt; word(b"ab", whole(b"abc")), b"".as_slice());
    Ok(())
}

#[test]
fn symbols_and_labels_have_their_names(rt: HostRuntime) -> Result<(), Fail> {
    for (source, kind, want) in [
        (b":ab".as_slice(), Kind::Symbol, b"ab".as_slice()),
        (b"ab:".as_slice(), Kind::Label, b"ab".as_slice()),
        (b"@ab".as_slice(), Kind::InstanceVariable, b"ab".as_slice()),
        (b"ab?".as_slice(), Kind::Name, b"ab?".as_slice()),
    ] {
        assert_eq!(rt; name(source, spanning(source, kind)), want);
    }
    Ok(())
}

const FREEZES: [(&[u8], bool); 10] = [
    (b"# frozen_string_literal: true", true),
    (b"# frozen_string_literal: true\na", true),
    (b"\xEF\xBB\xBF# frozen_string_literal: true\r\na", true),
    (b"#!ruby\n\n  # frozen_string_literal: true\na", true),
    (b"a\n# frozen_string_literal: true\n", false),
    (b"a # frozen_string_literal: true\n", false),
    (b"# frozen_string_literal: false\n", false),
    (b"# frozen_string_literal: true.\n", false),
    (b"## frozen_string_literal: true\n", false),
    (b"", false),
];

#[test]
fn a_comment_freezes_literals(rt: HostRuntime) -> Result<(), Fail> {
    for (source, want) in FREEZES {
        match lex(rt.alloc(), source) {
            Ok(tokens) => assert_eq!(rt; freezes_literals(source, &tokens), want),
            Err(_) => assert!(rt; false),
        }
    }
    Ok(())
}
