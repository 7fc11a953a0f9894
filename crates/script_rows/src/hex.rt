use std::alloc::{AllocError, Global};

fn digit(byte: u8) -> Option<u8> {
    match byte {
        b'0'..=b'9' => Some(byte - b'0'),
        b'a'..=b'f' => Some(byte - b'a' + 10),
        _ => None,
    }
}

fn pair(digits: &[u8]) -> Option<u8> {
    match digits {
        [high, low] => Some((digit(*high)? << 4) | digit(*low)?),
        _ => None,
    }
}

/// The bytes that pairs of hexadecimal digits encode, if they do.
pub(crate) fn bytes_of(alloc: Global, hex: &str) -> Result<Option<Vec<u8>>, AllocError> {
    let mut bytes = Vec::new(alloc);
    for digits in hex.as_bytes().chunks(2) {
        match pair(digits) {
            Some(byte) => bytes.push(byte)?,
            None => return Ok(None),
        }
    }
    Ok(Some(bytes))
}
