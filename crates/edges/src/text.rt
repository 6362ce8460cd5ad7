// A line's text: a name, a word and numbers, with one space between.

// The most numbers that a line has.
pub(crate) const MOST: usize = 20;

// A number in hexadecimal digits, of which no letter is a capital.
fn hex(text: &[u8]) -> Option<u64> {
    if !text.iter().all(|b| matches!(*b, b'0'..=b'9' | b'a'..=b'f')) {
        return None;
    }
    u64::from_str_radix(str::from_utf8(text).ok()?, 16).ok()
}

// The numbers after a word go to a row; nothing where one is malformed, or where they are too many.
fn numbers<'a>(text: Option<&[u8]>, row: &'a mut [u64; MOST]) -> Option<&'a [u64]> {
    // The count is what is answered; `enumerate` would lose the last one.
    let mut count = 0;
    if let Some(text) = text {
        for number in text.split(|b| *b == b' ') {
            *row.get_mut(count)? = hex(number)?;
            count += 1;
        }
    }
    row.get(..count)
}

// What stands before the first space, and behind it.
pub(crate) fn cut(text: &[u8]) -> (&[u8], Option<&[u8]>) {
    match text.iter().position(|b| *b == b' ') {
        Some(at) => (&text[..at], Some(&text[at + 1..])),
        None => (text, None),
    }
}

// The word and the numbers behind a line's name; nothing where they are malformed.
pub(crate) fn order<'a>(
    text: Option<&'a [u8]>,
    row: &'a mut [u64; MOST],
) -> Option<(&'a [u8], &'a [u64])> {
    let (word, rest) = cut(text?);
    Some((word, numbers(rest, row)?))
}
