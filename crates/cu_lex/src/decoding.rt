//! Where bytes stop being UTF-8.
ghost use Rattle.std.specs.Prelude.{◌≡◌, ◌≤◌, ◌++◌, length, take, IfOk};
ghost use Rattle.std.specs.Str.{is_utf8, IsUtf8};
ghost use Rattle.cu_lex.specs.Decoding.{begins_text, fault_offset as offset_of};

use std::alloc::{AllocError, Global};

/// The offset of the first byte that no UTF-8 text has there, where the bytes
/// up to `valid` are a text.
pub fn fault_offset(alloc: Global, bytes: &[u8], valid: usize) -> Result<usize, AllocError>
    requires text { IsUtf8 (take valid bytes.now) }
    requires within { valid ≤ length bytes.now }
    ensures { IfOk result (λ offset. offset ≡ offset_of bytes.now) }
{
    for end in valid..bytes.len() {
        if !begins(alloc, &bytes[valid..end + 1])? {
            return Ok(end);
        }
    }
    Ok(bytes.len())
}

/// Whether some UTF-8 text begins with the bytes.
#[tactic(auto, unfolding(crate::specs::Decoding::begins_text))]
fn begins(alloc: Global, bytes: &[u8]) -> Result<bool, AllocError>
    ensures { IfOk result (λ found. found ≡ begins_text bytes.now) }
{
    if is_text(alloc, bytes, &[])? {
        return Ok(true);
    }
    if is_text(alloc, bytes, &[0x80])? {
        return Ok(true);
    }
    if is_text(alloc, bytes, &[0x80, 0x80])? {
        return Ok(true);
    }
    if is_text(alloc, bytes, &[0x80, 0x80, 0x80])? {
        return Ok(true);
    }
    if is_text(alloc, bytes, &[0xA0, 0x80])? {
        return Ok(true);
    }
    is_text(alloc, bytes, &[0x90, 0x80, 0x80])
}

fn is_text(alloc: Global, bytes: &[u8], ending: &[u8]) -> Result<bool, AllocError>
    ensures { IfOk result (λ found. found ≡ is_utf8 (bytes.now ++ ending.now)) }
{
    let mut text = Vec::new(alloc);
    text.extend_from_slice(bytes)?;
    text.extend_from_slice(ending)?;
    match str::from_utf8(&text) {
        Ok(_) => Ok(true),
        Err(_) => Ok(false),
    }
}
