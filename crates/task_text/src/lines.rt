//! How a text is cut into lines.

ghost use Rattle.std.specs.Prelude.{◌≡◌, ◌≢◌, ◌==◌, ◌+◌, ◌<◌, ◌≤◌, ◌^◌, ◌∷◌, [], length};
ghost use Rattle.std.specs.List.{position, position_or_len};
ghost use Rattle.task_text.specs.Text as spec;

/// The byte order mark.
const MARK: [u8; 3] = [239, 187, 191];

fn first_place(byte: u8, bytes: &[u8]) -> Option<usize>
    ensures { result ≡ position (λ one. one == byte) bytes.now }
{
    bytes.iter().position(|one| *one == byte)
}

/// How many bytes stand before the first one that is this byte.
#[tactic(auto, using(crate::proofs::Cutting::positions))]
fn len_before(byte: u8, bytes: &[u8]) -> usize
    ensures value { result ≡ position_or_len (λ one. one == byte) bytes.now }
    ensures within { result ≤ length bytes.now }
{
    first_place(byte, bytes).unwrap_or(bytes.len())
}

/// The text without the byte order mark, if it begins with one.
pub fn without_mark(text: &[u8]) -> &[u8]
    ensures { result.now ≡ spec.without_mark text.now }
{
    if text.starts_with(&MARK) {
        &text[3..]
    } else {
        text
    }
}

/// A line up to its comment.
pub fn code_of(line: &[u8]) -> &[u8]
    ensures value { result.now ≡ spec.code_of line.now }
    ensures short { length result.now ≤ length line.now }
{
    &line[..len_before(b'#', line)]
}

/// The first line, and the text behind it.
pub fn split_line(text: &[u8]) -> (&[u8], &[u8])
    requires { text.now ≢ [] }
    ensures lines { spec.lines_of text.now ≡ result.0.now ∷ spec.lines_of result.1.now }
    ensures short { length result.0.now ≤ length text.now }
    ensures rest { length result.1.now < length text.now }
{
    let (line, behind) = text.split_at(len_before(b'\n', text));
    match behind {
        [_, rest @ ..] => (line, rest),
        [] => (line, behind),
    }
}

/// The number of the last line.
pub fn count_lines(text: &[u8]) -> u32
    requires { length text.now < 2 ^ 32 }
    ensures { result ≡ length (spec.lines_of (spec.without_mark text.now)) }
{
    let mut left = without_mark(text);
    let mut count = 0u32;
    'lines: while !left.is_empty() {
        let (_, rest) = split_line(left);
        count += 1;
        left = rest;
    }
    count
}
