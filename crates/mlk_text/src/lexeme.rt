// The smallest parts of M's texts: classes of bytes, and how many bytes of a class begin a text.

ghost use Rattle.std.specs.Prelude.{◌≡◌, ◌≤◌, length, option_map};
ghost use Rattle.mlk_text.specs.Lexemes.{is_digit, is_letter, is_name_byte, is_text_byte};
ghost use Rattle.mlk_text.specs.Lexemes.{is_text, digits, letters, name_bytes, byte_at, word_at};

/// Whether `b` is a digit.
pub fn is_digit(b: u8) -> bool
    ensures { result ≡ is_digit b }
{
    48 <= b && b <= 57
}

/// Whether `b` is an ASCII letter.
pub fn is_letter(b: u8) -> bool
    ensures { result ≡ is_letter b }
{
    (65 <= b && b <= 90) || (97 <= b && b <= 122)
}

/// Whether `b` may follow in a name: a digit or a letter.
pub fn is_name_byte(b: u8) -> bool
    ensures { result ≡ is_name_byte b }
{
    is_digit(b) || is_letter(b)
}

/// Whether `b` is allowed in a quoted text or a comment.
pub fn is_text_byte(b: u8) -> bool
    ensures { result ≡ is_text_byte b }
{
    b == 9 || (32 <= b && b <= 126) || (128 <= b && b <= 255)
}

/// Whether all of `bytes` are allowed in a comment.
pub fn is_text(bytes: &[u8]) -> bool
    ensures { result ≡ is_text bytes.now }
{
    bytes.iter().all(|b| is_text_byte(*b))
}

/// The number of digits at the front of `bytes`.
pub fn digits(bytes: &[u8]) -> usize
    ensures value { result ≡ digits bytes.now }
    ensures within { result ≤ length bytes.now }
{
    bytes.iter().take_while(|b| is_digit(**b)).count()
}

/// The number of letters at the front of `bytes`.
pub fn letters(bytes: &[u8]) -> usize
    ensures value { result ≡ letters bytes.now }
    ensures within { result ≤ length bytes.now }
{
    bytes.iter().take_while(|b| is_letter(**b)).count()
}

/// The number of bytes at the front of `bytes` that may follow in a name.
pub fn name_bytes(bytes: &[u8]) -> usize
    ensures value { result ≡ name_bytes bytes.now }
    ensures within { result ≤ length bytes.now }
{
    bytes.iter().take_while(|b| is_name_byte(**b)).count()
}

/// The rest of `bytes` after `b`, or `None` if they do not begin with `b`.
pub fn byte_of(b: u8, bytes: &[u8]) -> Option<&[u8]>
    ensures { option_map (λ x. (b, x.now)) result ≡ byte_at b bytes.now }
{
    let Some((first, rest)) = bytes.split_first() else {
        return None;
    };
    if *first == b { Some(rest) } else { None }
}

/// Splits `bytes` after the letters at the front.
pub fn word_at(bytes: &[u8]) -> (&[u8], &[u8])
    ensures { (result.0.now, result.1.now) ≡ word_at bytes.now }
{
    bytes.split_at(letters(bytes))
}
