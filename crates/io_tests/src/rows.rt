//! What the tables' loops share.
use std::alloc::Global;
use std::test::Fail;

/// The text and the wanted answer of a row.
pub fn parts(row: &str) -> Result<(&str, &str), Fail> {
    Ok(row.split_once(" => ").ok_or("a text and what is wanted")?)
}

/// The bytes of a part of a row.
pub fn bytes_of(alloc: Global, text: &str) -> Result<Vec<u8>, Fail> {
    let mut bytes = Vec::new(alloc);
    for (index, part) in text.split('~').enumerate() {
        if index == 0 {
            bytes.extend_from_slice(part.as_bytes())?;
        } else {
            let (code, rest) = part.split_at_checked(2).ok_or("two digits")?;
            bytes.push(u8::from_str_radix(code, 16)?)?;
            bytes.extend_from_slice(rest.as_bytes())?;
        }
    }
    Ok(bytes)
}
