//! Bytes as hexadecimal digits, and numbers as decimal ones.
use std::alloc::{AllocError, Global};
use std::test::Fail;

/// What a hexadecimal digit says; 0 for any other byte.
fn digit(byte: u8) -> u8 {
    match byte {
        b'0'..=b'9' => byte - b'0',
        b'a'..=b'f' => byte - b'a' + 10,
        _ => 0,
    }
}

/// The bytes that these digits say, two for each.
pub fn bytes_of(alloc: Global, digits: &[u8]) -> Result<Vec<u8>, AllocError> {
    let mut bytes = Vec::new(alloc);
    for pair in digits.chunks_exact(2) {
        if let [high, low] = pair {
            bytes.push((digit(*high) << 4) | digit(*low))?;
        }
    }
    Ok(bytes)
}

/// The digits that say these bytes.
pub fn digits_of(alloc: Global, bytes: &[u8]) -> Result<String, Fail> {
    let mut digits = String::new(alloc);
    for byte in bytes {
        digits.push_str(format!(in alloc; "{byte:02x}")?.as_str())?;
    }
    Ok(digits)
}

/// The number that decimal digits say, the greatest where they say a greater one.
pub fn number_of(digits: &[u8]) -> usize {
    let mut number: usize = 0;
    for byte in digits {
        number = number
            .saturating_mul(10)
            .saturating_add(usize::from(digit(*byte)));
    }
    number
}
