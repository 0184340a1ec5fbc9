//! How a line is cut into words.

ghost use Rattle.std.specs.Prelude.{◌≡◌, ◌≤◌, false, length};
ghost use Rattle.std.specs.List.{position, position_or_len};
ghost use Rattle.task_text.specs.Text as spec;
ghost use Rattle.task_text.specs.Cursor.{begins_with_blank, words_from};

/// A space, tab or carriage return, which part words.
pub fn is_blank(byte: u8) -> bool
    ensures { result ≡ spec.is_blank byte }
{
    byte == b' ' || byte == b'\t' || byte == b'\r'
}

/// The bytes from the first on that is no blank.
fn past_blanks(mut bytes: &[u8]) -> &[u8]
    ensures same { spec.words_of result.now ≡ spec.words_of bytes.entry.now }
    ensures front { begins_with_blank result.now ≡ false }
{
    'blanks: while let [first, rest @ ..] = bytes {
        if !is_blank(*first) {
            break;
        }
        bytes = rest;
    }
    bytes
}

fn first_blank(bytes: &[u8]) -> Option<usize>
    ensures { result ≡ position spec.is_blank bytes.now }
{
    bytes.iter().position(|byte| is_blank(*byte))
}

/// How many bytes stand before the first blank.
#[tactic(auto, using(crate::proofs::Cutting::positions))]
fn word_len(bytes: &[u8]) -> usize
    ensures value { result ≡ position_or_len spec.is_blank bytes.now }
    ensures within { result ≤ length bytes.now }
{
    first_blank(bytes).unwrap_or(bytes.len())
}

/// The first word, and the bytes behind it. Where there is no word, both are empty.
#[tactic(auto, using(crate::proofs::Cutting::cutting))]
pub fn split_word(bytes: &[u8]) -> (&[u8], &[u8])
    ensures { words_from result.0.now result.1.now ≡ spec.words_of bytes.now }
{
    let bytes = past_blanks(bytes);
    bytes.split_at(word_len(bytes))
}
