//! A sheet of readings of 16 members in all 96 blocks.
use std::alloc::{AllocError, Global};

/// A line of the sheet, put at the end of the text.
fn push_line(heap: Global, text: &mut String, member: u32, block: u32) -> Result<(), AllocError> {
    let scheduled = 10_000 + 37 * (block % 96);
    let metered = 9_000 + 53 * (block % 96) + member % 16;
    let available = member % 3 * 5_000;
    let line = format!(in heap; "{member},{block},{scheduled},{metered},{available}\n")?;
    text.push_str(line.as_str())
}

/// The whole sheet.
pub fn full_readings(heap: Global) -> Result<String, AllocError> {
    let mut text = String::from_str(heap, "member,block,scheduled,metered,available\n")?;
    for member in 0..16 {
        for block in 0..96 {
            push_line(heap, &mut text, member, block)?;
        }
    }
    Ok(text)
}
