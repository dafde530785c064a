use plain_text::{
    ExactWords, WordFault, cut, exact_number, exact_up_to, must_be, number_by, split_line,
    take_end, take_three, take_word,
};

fn is_cut(text: &[u8], separator: u8, front: &[u8], behind: &[u8]) -> bool {
    match cut(text, separator) {
        (first, Some(rest)) => first == front && rest == behind,
        (_, None) => false,
    }
}

#[test]
fn texts_are_cut_at_the_first_separator(rt: HostRuntime) {
    assert!(rt; is_cut(b"a b c", b' ', b"a", b"b c"));
    assert!(rt; is_cut(b" a", b' ', b"", b"a"));
    assert!(rt; is_cut(b"a@", b'@', b"a", b""));
    assert!(rt; cut(b"a b", b'@').1.is_none());
    assert!(rt; cut(b"", b' ').1.is_none());
}

fn is_split(text: &[u8], line: &[u8], behind: &[u8]) -> bool {
    match split_line(text) {
        Some((first, rest)) => first == line && rest == behind,
        None => false,
    }
}

#[test]
fn a_line_has_an_end(rt: HostRuntime) {
    assert!(rt; is_split(b"one\ntwo\n", b"one", b"two\n"));
    assert!(rt; is_split(b"\n", b"", b""));
    assert!(rt; is_split(b"one\r\n", b"one\r", b""));
    assert!(rt; split_line(b"one").is_none());
    assert!(rt; split_line(b"").is_none());
}

#[test]
fn numbers_have_one_form(rt: HostRuntime) {
    for &(word, value) in &[
        ("0", Some(0)),
        ("7", Some(7)),
        ("4294967295", Some(4_294_967_295)),
        ("4294967296", None),
        ("10000000000", None),
        ("00", None),
        ("07", None),
        ("", None),
        ("-1", None),
        ("1 ", None),
        ("1a", None),
    ] {
        assert!(rt; exact_number(word.as_bytes()) == value, "{word}");
    }
}

#[test]
fn numbers_are_at_most_what_is_said(rt: HostRuntime) {
    for &(word, most, value) in &[
        ("255", 255, Some(255)),
        ("256", 255, None),
        ("0", 0, Some(0)),
        (
            "18446744073709551615",
            18_446_744_073_709_551_615,
            Some(18_446_744_073_709_551_615),
        ),
        ("18446744073709551616", 18_446_744_073_709_551_615, None),
        ("01", 255, None),
    ] {
        assert!(rt; exact_up_to(word.as_bytes(), most) == value, "{word}");
    }
}

// Whether a line is three words, `to` and a number.
fn read_line(line: &[u8]) -> Result<u32, WordFault> {
    let mut words = ExactWords::new(line);
    let three = take_three(&mut words)?;
    let between = take_word(&mut words)?;
    let last = take_word(&mut words)?;
    take_end(&mut words)?;
    must_be(between, b"to")?;
    must_be(three.y, b"b")?;
    number_by::<ExactWords>(last)
}

#[test]
fn words_are_taken_one_after_another(rt: HostRuntime) {
    for &(line, read) in &[
        ("a b c to 17", Ok(17)),
        ("a b c to", Err(WordFault::Missing)),
        ("a b", Err(WordFault::Missing)),
        ("a b c at x y", Err(WordFault::Extra)),
        ("a b c at x", Err(WordFault::Word)),
        ("a  c to 17", Err(WordFault::Word)),
        ("a b c to 017", Err(WordFault::Number)),
        ("a b c to 17 ", Err(WordFault::Extra)),
    ] {
        assert!(rt; read_line(line.as_bytes()) == read, "{line}");
    }
}
