//! The form of decimal texts, and their parts.

ghost use Rattle.std.specs.Prelude.{◌≡◌, ◌+◌, ◌≤◌, nat_le, length, drop, position, count_by};
ghost use Rattle.std.specs.List.{list_any, list_all, position_or_len, after_first};
ghost use Rattle.std.specs.Char.{is_ascii_digit};
ghost use Rattle.std.specs.Str.Parse.{starts_with_minus, without_leading_sign};
ghost use Rattle.lp_nums.specs.Decimals.{is_exponent_mark, is_point, is_digit_or_point, mantissa, exponent, has_exponent, is_mantissa, is_numeral, is_decimal};

/// The text behind its sign, if it has one.
pub fn without_sign(text: &[u8]) -> &[u8]
    ensures { result.now ≡ without_leading_sign text.now }
{
    match text {
        [b'+' | b'-', rest @ ..] => rest,
        _ => text,
    }
}

/// Whether the text begins with a minus.
pub fn is_negative(text: &[u8]) -> bool
    ensures { result ≡ starts_with_minus text.now }
{
    matches!(text, [b'-', ..])
}

fn mark(text: &[u8]) -> Option<usize>
    ensures { result ≡ position is_exponent_mark text.now }
{
    text.iter().position(|c| *c == b'E' || *c == b'e')
}

fn point(text: &[u8]) -> Option<usize>
    ensures { result ≡ position is_point text.now }
{
    text.iter().position(|c| *c == b'.')
}

/// The place of the first E or e, or the text's length.
fn mark_place(text: &[u8]) -> usize
    ensures place { result ≡ position_or_len is_exponent_mark text.now }
    ensures within { result ≤ length text.now }
{
    mark(text).unwrap_or(text.len())
}

/// The place of the first point, or the text's length.
fn point_place(text: &[u8]) -> usize
    ensures place { result ≡ position_or_len is_point text.now }
    ensures within { result ≤ length text.now }
{
    point(text).unwrap_or(text.len())
}

/// What stands behind a place.
fn behind(text: &[u8], place: usize) -> &[u8]
    requires { place ≤ length text.now }
    ensures { result.now ≡ drop (place + 1) text.now }
{
    match &text[place..] {
        [_, rest @ ..] => rest,
        empty => empty,
    }
}

/// What stands behind the sign and before the first E or e.
pub fn mantissa_of(text: &[u8]) -> &[u8]
    ensures { result.now ≡ mantissa text.now }
{
    let body = without_sign(text);
    &body[..mark_place(body)]
}

/// What stands behind the first E or e.
pub fn exponent_of(text: &[u8]) -> &[u8]
    ensures { result.now ≡ exponent text.now }
{
    let body = without_sign(text);
    behind(body, mark_place(body))
}

/// How many bytes stand behind the point.
pub fn scale_of(mantissa: &[u8]) -> usize
    ensures { result ≡ length (after_first is_point mantissa.now) }
{
    behind(mantissa, point_place(mantissa)).len()
}

fn has_mark(text: &[u8]) -> bool
    ensures { result ≡ has_exponent text.now }
{
    without_sign(text).iter().any(|c| *c == b'E' || *c == b'e')
}

fn has_digit(text: &[u8]) -> bool
    ensures { result ≡ list_any is_ascii_digit text.now }
{
    text.iter().any(|c| c.is_ascii_digit())
}

fn has_only_digits(text: &[u8]) -> bool
    ensures { result ≡ list_all is_ascii_digit text.now }
{
    text.iter().all(|c| c.is_ascii_digit())
}

fn has_only_digits_and_points(text: &[u8]) -> bool
    ensures { result ≡ list_all is_digit_or_point text.now }
{
    text.iter().all(|c| c.is_ascii_digit() || *c == b'.')
}

fn has_no_second_point(text: &[u8]) -> bool
    ensures { result ≡ nat_le (count_by is_point text.now) 1 }
{
    text.iter().filter(|c| **c == b'.').count() <= 1
}

fn is_mantissa(text: &[u8]) -> bool
    ensures { result ≡ is_mantissa text.now }
{
    has_digit(text) && has_only_digits_and_points(text) && has_no_second_point(text)
}

fn is_numeral(text: &[u8]) -> bool
    ensures { result ≡ is_numeral text.now }
{
    !text.is_empty() && has_only_digits(text)
}

/// Whether the text is a decimal number.
pub fn is_decimal(text: &[u8]) -> bool
    ensures { result ≡ is_decimal text.now }
{
    is_mantissa(mantissa_of(text))
        && (!has_mark(text) || is_numeral(without_sign(exponent_of(text))))
}
