use crate::{
    NameTable, are_hex_digits, before_comment, cut_at, hex_digit, is_name, look_up, next_word,
    number_of_digits, without_outer_blanks,
};
use std::test::Fail;

#[test]
fn parts_of_a_line(rt: HostRuntime) {
    assert_eq!(rt; before_comment(b"nop # a # b"), b"nop ".as_slice());
    assert_eq!(rt; without_outer_blanks(b" \t a b\r "), b"a b".as_slice());
    assert_eq!(rt;
        cut_at(b"a,b,c", b','),
        (b"a".as_slice(), Some(b"b,c".as_slice()))
    );
    assert_eq!(rt;
        next_word(b"  one\ttwo "),
        Some((b"one".as_slice(), b"two ".as_slice()))
    );
    assert_eq!(rt; next_word(b" \r\t"), None);
}

#[test]
fn names(rt: HostRuntime) {
    for (text, greatest_length, want) in [
        (b"a_1".as_slice(), 3, true),
        (b"a_1".as_slice(), 2, false),
        (b"_".as_slice(), 16, true),
        (b"1a".as_slice(), 16, false),
        (b"".as_slice(), 16, false),
        (b"a-b".as_slice(), 16, false),
    ] {
        assert_eq!(rt; is_name(text, greatest_length), want, "{text:?}");
    }
}

#[test]
fn numbers(rt: HostRuntime) -> Result<(), Fail> {
    for (text, base, want) in [
        (b"0010".as_slice(), 10, Some(10)),
        (b"fF".as_slice(), 16, Some(255)),
        (b"4294967295".as_slice(), 10, Some(4_294_967_295)),
        (b"4294967296".as_slice(), 10, None),
        (b"".as_slice(), 10, None),
        (b"1a".as_slice(), 10, None),
    ] {
        assert_eq!(rt;
            number_of_digits(text, base, 4_294_967_295),
            want,
            "{text:?}"
        );
    }
    Ok(())
}

#[test]
fn hexadecimal_digits(rt: HostRuntime) {
    for (text, want) in [
        (b"09aF".as_slice(), true),
        (b"".as_slice(), false),
        (b"0g".as_slice(), false),
    ] {
        assert_eq!(rt; are_hex_digits(text), want, "{text:?}");
    }
    assert_eq!(rt; hex_digit(b'9'), 9);
    assert_eq!(rt; hex_digit(b'a'), 10);
    assert_eq!(rt; hex_digit(b'F'), 15);
}

#[test]
fn first_row_of_a_text(rt: HostRuntime) {
    let table = [("a", 1), ("ab", 2), ("a", 3)];
    assert_eq!(rt; look_up(&table, b"a"), Some(1));
    assert_eq!(rt; look_up(&table, b"ab"), Some(2));
    assert_eq!(rt; look_up(&table, b"b"), None);
}

#[test]
fn last_meaning_of_a_name(rt: HostRuntime) -> Result<(), Fail> {
    let mut table = NameTable::new(rt.alloc());
    assert_eq!(rt; table.meaning(b"a"), None);
    table.define(b"a", 1)?;
    table.define(b"ab", 2)?;
    table.define(b"a", 3)?;
    assert_eq!(rt; table.meaning(b"a"), Some(3));
    assert_eq!(rt; table.meaning(b"ab"), Some(2));
    assert_eq!(rt; table.meaning(b"b"), None);
    Ok(())
}
