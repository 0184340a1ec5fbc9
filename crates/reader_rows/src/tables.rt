//! Texts and lines with their faults.

use task_text::Cause;

/// A text with the cause, line and word of its first fault.
pub(crate) type TextFault = (&'static [u8], Cause, u32, u32);

/// A line with the cause and word of its fault.
pub(crate) type LineFault = (&'static [u8], Cause, u32);

/// What stands in front, how many items, what stands before and behind the name of each, the last line, and the line
/// and word of the fault.
pub(crate) type TextAtLimit = (
    &'static [u8],
    u8,
    &'static [u8],
    &'static [u8],
    &'static [u8],
    Option<(u32, u32)>,
);

/// Texts, with the cause, line and word of their first fault.
pub(crate) static FAULTS_OF_TEXTS: [TextFault; 18] = [
    (b"", Cause::NoHeader, 1, 0),
    (b"\n# x\n", Cause::NoHeader, 1, 0),
    (b"\nktask", Cause::NoHeader, 2, 2),
    (b"ktask 01", Cause::NoHeader, 1, 2),
    (b"kind k\nktask 1", Cause::NoHeader, 1, 1),
    (b"Ktask \x80", Cause::NotText, 1, 2),
    (b"ktask 1 x", Cause::WordsLeft, 1, 3),
    (b"ktask 1\nend", Cause::UnknownWord, 2, 1),
    (b"ktask 1\nkind k\nvar x\nkind j", Cause::UnknownWord, 4, 1),
    (b"ktask 1\nkind k\n\n# end\n", Cause::NoEnd, 4, 0),
    (b"ktask 1\nkind k\nstate s\n# end\n\n", Cause::NoEnd, 5, 0),
    (b"ktask 1\nkind k\nstate s\nstate t", Cause::NoEnd, 4, 0),
    (
        b"ktask 1\nkind k\nstate s\nstate t x",
        Cause::UnknownWord,
        4,
        3,
    ),
    (b"ktask 1\nkind k\nstate s\ngoto l\nend", Cause::NoEnd, 5, 0),
    (
        b"ktask 1\nkind k\nstate s\ngoto l\nset x 1",
        Cause::UnknownWord,
        5,
        1,
    ),
    (
        b"ktask 1\nkind k\nstate s\ndone 0\nstate s",
        Cause::TwiceNamed,
        5,
        2,
    ),
    (b"ktask 1\nkind k\nend\nkind k", Cause::NoEnd, 3, 0),
    (b"ktask 1\nroot r k\nroot r k", Cause::TwiceNamed, 3, 2),
];

/// Lines in a state, with the cause and word of their fault.
pub(crate) static FAULTS_OF_INSTRUCTIONS: [LineFault; 33] = [
    (b"else", Cause::UnknownWord, 1),
    (b"root r k", Cause::UnknownWord, 1),
    (b"zet x\x7f", Cause::NotText, 2),
    (b"set x -1", Cause::BadName, 3),
    (b"set x 1x", Cause::BadNumber, 3),
    (b"set 1x 1", Cause::BadName, 2),
    (b"set abcdefghijklmnopqrstuvwxy 1", Cause::BadName, 2),
    (b"add x 1", Cause::BadName, 4),
    (b"cell x goto 1", Cause::BadName, 3),
    (b"rows x", Cause::BadName, 3),
    (b"get x @a @b", Cause::WordsLeft, 4),
    (b"copy @a b", Cause::BadName, 3),
    (b"drop a", Cause::BadName, 2),
    (b"label top", Cause::TwiceNamed, 2),
    (b"goto top", Cause::BackLabel, 2),
    (b"goto 5", Cause::BadName, 2),
    (b"if n", Cause::UnknownWord, 3),
    (b"if n < 2 got x", Cause::UnknownWord, 5),
    (b"if n < 2 goto top", Cause::BackLabel, 6),
    (b"if n < 2 goto out 1", Cause::WordsLeft, 7),
    (b"spawn @f k -1", Cause::UnknownWord, 4),
    (b"spawn @f k 5x", Cause::BadNumber, 4),
    (b"spawn @f k behind @p 5x", Cause::UnknownWord, 6),
    (b"spawn @f k retry foo", Cause::WordsLeft, 5),
    (
        b"spawn @f k 1 2 3 4 5 6 7 8 9 10 11 12 13 14 15 16 17",
        Cause::TooMany,
        20,
    ),
    (
        b"spawn @f k 1 2 3 4 5 6 7 8 9 10 11 12 13 14 15 16 1x",
        Cause::BadNumber,
        20,
    ),
    (b"all @g", Cause::BadName, 3),
    (b"all @g @a x", Cause::UnknownWord, 4),
    (b"all @g @a @b @c @d @e @f @g @h @i", Cause::TooMany, 11),
    (b"again s behind 5", Cause::BadName, 4),
    (b"again s foo", Cause::UnknownWord, 3),
    (b"done 18446744073709551616", Cause::BadNumber, 2),
    (b"done 0 1", Cause::WordsLeft, 3),
];

/// Lines outside of a kind, with the cause and word of their fault.
pub(crate) static FAULTS_OUTSIDE: [LineFault; 11] = [
    (b"var x", Cause::UnknownWord, 1),
    (b"kind k", Cause::TwiceNamed, 2),
    (b"kind 5", Cause::BadName, 2),
    (b"kind j a @a a", Cause::TwiceNamed, 5),
    (b"kind j a @a 5", Cause::BadName, 5),
    (
        b"kind j a b c d e f g h i j k l m n o p @q",
        Cause::TooMany,
        19,
    ),
    (b"root r", Cause::BadName, 3),
    (b"root r k x", Cause::UnknownWord, 4),
    (b"root r k 5x", Cause::BadNumber, 4),
    (
        b"root r k 1 2 3 4 5 6 7 8 9 10 11 12 13 14 15 16 @q",
        Cause::TooMany,
        20,
    ),
    (b"root r k behind @b low 5", Cause::WordsLeft, 7),
];

/// Lines in a kind, before its first state, with the cause and word of their fault.
pub(crate) static FAULTS_IN_A_KIND: [LineFault; 11] = [
    (b"var", Cause::BadName, 2),
    (b"var n", Cause::TwiceNamed, 2),
    (b"var a 5", Cause::BadName, 3),
    (b"end", Cause::NoEnd, 0),
    (b"end x", Cause::WordsLeft, 2),
    (b"state s holds", Cause::BadName, 4),
    (b"state s holds @a foo", Cause::UnknownWord, 5),
    (b"state s holds @a settled", Cause::BadName, 6),
    (b"state s settled @a foo", Cause::BadName, 5),
    (b"state s holds @a @a", Cause::TwiceNamed, 5),
    (b"done 0", Cause::UnknownWord, 1),
];

/// Texts with many items of one sort, the last of which may be past the limit.
pub(crate) static TEXTS_AT_LIMITS: [TextAtLimit; 10] = [
    (b"", 64, b"kind ", b"\nstate s\ndone 0\nend\n", b"", None),
    (
        b"",
        64,
        b"kind ",
        b"\nstate s\ndone 0\nend\n",
        b"kind 5",
        Some((258, 1)),
    ),
    (b"", 16, b"root ", b" k\n", b"", None),
    (b"", 16, b"root ", b" k\n", b"root 5 k", Some((18, 1))),
    (b"kind k\n", 32, b"state ", b"\ndone 0\n", b"end", None),
    (
        b"kind k\n",
        32,
        b"state ",
        b"\ndone 0\n",
        b"state aa",
        Some((67, 1)),
    ),
    (
        b"kind k\nstate s\n",
        63,
        b"label ",
        b"\n",
        b"done 0\nend",
        None,
    ),
    (
        b"kind k\nstate s\n",
        64,
        b"label ",
        b"\n",
        b"label aa",
        Some((68, 1)),
    ),
    (
        b"kind k @x\nvar ",
        254,
        b"v",
        b" ",
        b"\nstate s\ndone 0\nend",
        None,
    ),
    (b"kind k @x\nvar ", 254, b"v", b" ", b"w 5", Some((3, 256))),
];

/// A text with a line of each sort.
pub(crate) static ONE_LINE_OF_EACH_SORT: &[u8] = b"\xef\xbb\xbfktask 1 # the first line\n
kind k n @p\n  var x y\r\n var @a @x
state s holds @p settled @p\n\tset x 18446744073709551615\n sub x n 7\n rem y x n
 if x <= 5 goto out\n cell y price x\n rows y price\n get y @p
 spawn @a j 1 x @p behind @p low retry\n all @x @a @a\n copy @x @a\n drop @a
 label out\n again t behind @x high\nstate t\n label out\n done y\nend
root q j\nroot r k 5 @q behind @q low";
