//! What is between tokens.

ghost use Rattle.std.specs.Prelude.{◌≡◌, ◌≤◌, length};
ghost use Rattle.std.specs.List.{position_or_len};
ghost use Rattle.np_lex.specs.Blanks.{is_blank, is_line_feed, blank_length};

fn is_blank(byte: u8) -> bool
    ensures { result ≡ is_blank byte }
{
    matches!(byte, b' ' | b'\t' | b'\r' | b'\n')
}

/// The number of bytes before the first line feed, or of all bytes.
fn line_length(bytes: &[u8]) -> usize
    ensures value { result ≡ position_or_len is_line_feed bytes.now }
    ensures in_range { result ≤ length bytes.now }
{
    for (n, &byte) in bytes.iter().enumerate() {
        if byte == b'\n' {
            return n;
        }
    }
    bytes.len()
}

/// The number of bytes of the leading blanks and comments. A comment runs from `;` up to the end of the line or of the
/// text.
pub fn blank_length(bytes: &[u8]) -> usize
    ensures value { result ≡ blank_length bytes.now }
    ensures in_range { result ≤ length bytes.now }
{
    let mut n = 0;
    while n < bytes.len() {
        let byte = bytes[n];
        if byte > b' ' {
            // Mostly a token begins here, and one comparison tells.
            if byte != b';' {
                break;
            }
            n += line_length(&bytes[n..]);
        } else if is_blank(byte) {
            n += 1;
        } else {
            break;
        }
    }
    n
}
