use std::alloc::{AllocError, Global};
use std::process::Abort;
use std::test::Fail;
use task_syntax::Name;
use task_text::{
    Cause, Fault, Rows, Words, begins_with_digit, count_lines, is_among, is_future, is_missing,
    is_name, is_no_bad_number, is_number, is_operand, is_text, number_of,
};

#[test]
fn names_are_told_from_other_words(rt: HostRuntime) {
    let table: [(&[u8], bool); 16] = [
        (b"a", true),
        (b"Z9_", true),
        (b"kinds", true),
        (b"Kind", true),
        (b"abcdefghijklmnopqrstuvwx", true),
        (b"abcdefghijklmnopqrstuvwxy", false),
        (b"", false),
        (b"_a", false),
        (b"9a", false),
        (b"@a", false),
        (b"a-b", false),
        (b"a@", false),
        (b"kind", false),
        (b"else", false),
        (b"ktask", false),
        (b"settled", false),
    ];
    for (word, want) in table {
        assert_eq!(rt; is_name(word), want);
    }
}

#[test]
fn futures_and_operands_are_told_from_other_words(rt: HostRuntime) {
    let table: [(&[u8], [bool; 5]); 9] = [
        (b"@a", [true, false, false, true, false]),
        (
            b"@abcdefghijklmnopqrstuvwx",
            [true, false, false, true, false],
        ),
        (
            b"@abcdefghijklmnopqrstuvwxy",
            [false, false, false, true, false],
        ),
        (b"@kind", [false, false, false, true, false]),
        (b"@", [false, false, false, true, false]),
        (b"x", [false, true, false, true, false]),
        (b"7", [false, true, true, true, false]),
        (b"7x", [false, true, true, false, false]),
        (b"", [false, false, false, true, true]),
    ];
    for (word, want) in table {
        let got = [
            is_future(word),
            is_operand(word),
            begins_with_digit(word),
            is_no_bad_number(word),
            is_missing(word),
        ];
        assert!(rt; got == want);
    }
}

#[test]
fn numbers_have_up_to_20_digits_and_64_bits(rt: HostRuntime) {
    let table: [(&[u8], Option<u64>); 11] = [
        (b"0", Some(0)),
        (b"007", Some(7)),
        (b"10", Some(10)),
        (b"18446744073709551615", Some(18446744073709551615)),
        (b"18446744073709551616", None),
        (b"99999999999999999999", None),
        (b"00000000000000000012", Some(12)),
        (b"000000000000000000012", None),
        (b"", None),
        (b"1a", None),
        (b"-1", None),
    ];
    for (word, want) in table {
        assert_eq!(rt; number_of(word), want);
        assert_eq!(rt; is_number(word), want.is_some());
    }
}

#[test]
fn bytes_of_text_are_printable(rt: HostRuntime) {
    let table: [(&[u8], bool); 6] = [
        (b"!~", true),
        (b"", true),
        (b"a\x7f", false),
        (b"\x80", false),
        (b"a\x0b", false),
        (b"\x00", false),
    ];
    for (word, want) in table {
        assert_eq!(rt; is_text(word), want);
    }
}

/// The rows of a text as their words, each behind its line and number, with a bar behind each word.
fn shown(rt: &impl Abort, alloc: Global, text: &[u8]) -> Result<Vec<u8>, AllocError> {
    assert!(rt; text.len() < 1000000);
    let mut out = Vec::new(alloc);
    let mut rows = Rows::new(text);
    for _ in 0..1000 {
        let Some(mut words) = rows.next_row() else {
            return Ok(out);
        };
        for _ in 0..1000 {
            if words.is_over() {
                break;
            }
            let place = words.fault(Cause::NotText);
            out.push((place.line % 100) as u8)?;
            out.push((place.word % 100) as u8)?;
            out.extend_from_slice(words.take_word())?;
            out.push(b'|')?;
        }
    }
    Ok(out)
}

#[test]
fn rows_are_numbered_lines_with_words(rt: HostRuntime) -> Result<(), Fail> {
    let table: [(&[u8], &[u8], u32); 9] = [
        (b"", b"", 0),
        (b"\n", b"", 1),
        (b"a", b"\x01\x01a|", 1),
        (b"a\n", b"\x01\x01a|", 1),
        (b"a b\n\nc", b"\x01\x01a|\x01\x02b|\x03\x01c|", 3),
        (b" \t\r\n#x\n a#b \xff\n", b"\x03\x01a|", 3),
        (b"\xef\xbb\xbfktask\t1 \r\n", b"\x01\x01ktask|\x01\x021|", 1),
        (b"\xef\xbb\xbf\xef\xbb\xbfa", b"\x01\x01\xef\xbb\xbfa|", 1),
        (b"\n\n\xef\xbb\xbf\n", b"\x03\x01\xef\xbb\xbf|", 3),
    ];
    for (text, want, lines) in table {
        assert!(rt; shown(&rt, rt.alloc(), text)?.as_slice() == want);
        assert_eq!(rt; count_lines(text), lines);
    }
    Ok(())
}

fn fault(cause: Cause, line: u32, word: u32) -> Fault {
    Fault { cause, line, word }
}

#[test]
fn words_are_read_or_at_fault(rt: HostRuntime) {
    let mut words = Words::new(7, b"add x @f 12 low # high");
    assert_eq!(rt; words.check_text(), Ok(()));
    assert_eq!(rt; words.fixed(b"sub"), Err(fault(Cause::UnknownWord, 7, 1)));
    assert_eq!(rt; words.fixed(b"add"), Ok(()));
    assert_eq!(rt;
        words.read_future().err(),
        Some(fault(Cause::BadName, 7, 2))
    );
    let taken = [Name::new(b"y"), Name::new(b"x")];
    assert_eq!(rt; is_among(&taken, b"x"), true);
    assert_eq!(rt;
        words.read_new_name(Cause::TwiceNamed, &taken).err(),
        Some(fault(Cause::TwiceNamed, 7, 2))
    );
    assert!(rt;
        words
            .read_new_name(Cause::TwiceNamed, &taken[..1])
            .is_ok_and(|name| name.as_bytes() == b"x".as_slice())
    );
    assert_eq!(rt; words.read_name().err(), Some(fault(Cause::BadName, 7, 3)));
    assert!(rt;
        words
            .read_future()
            .is_ok_and(|name| name.as_bytes() == b"f".as_slice())
    );
    assert_eq!(rt; words.room(16, 16), Err(fault(Cause::TooMany, 7, 4)));
    assert_eq!(rt; words.room(15, 16), Ok(()));
    assert_eq!(rt; words.read_number(), Ok(12));
    assert_eq!(rt; words.read_number(), Err(fault(Cause::BadNumber, 7, 5)));
    assert_eq!(rt; words.ended(), Err(fault(Cause::WordsLeft, 7, 5)));
    assert_eq!(rt;
        words.need(false, Cause::BackLabel),
        Err(fault(Cause::BackLabel, 7, 5))
    );
    assert!(rt; !words.eat(b"high"));
    assert!(rt; words.eat(b"low"));
    assert!(rt; words.peek() == b"#".as_slice());
}

#[test]
fn long_texts_are_gone_over_once(rt: HostRuntime) -> Result<(), Fail> {
    let mut lines = vec![in rt.alloc(); b'\n'; 1000000]?;
    lines.extend_from_slice(b"last")?;
    assert!(rt; lines.len() < 2000000);
    let last = Rows::new(lines.as_slice()).next_row();
    assert!(rt; last.is_some_and(|words| words.fault(Cause::NoEnd).line == 1000001));

    let word = vec![in rt.alloc(); b'a'; 1000000]?;
    assert!(rt; word.len() < 2000000);
    assert_eq!(rt;
        Words::new(1, word.as_slice()).read_name().err(),
        Some(fault(Cause::BadName, 1, 1))
    );

    let mut line = Vec::new(rt.alloc());
    for _ in 0..500000 {
        line.extend_from_slice(b"a ")?;
    }
    assert!(rt; line.len() < 2000000);
    let mut words = Words::new(1, line.as_slice());
    assert_eq!(rt; words.check_text(), Ok(()));
    for _ in 0..500000 {
        words.take_word();
    }
    assert_eq!(rt;
        words.fault(Cause::WordsLeft),
        fault(Cause::WordsLeft, 1, 500001)
    );
    Ok(())
}
