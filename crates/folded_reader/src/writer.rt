// Sums to folded text.
ghost use Rattle.std.specs.Prelude.{◌≡◌, ◌++◌, ◌∷◌, length, map, min, IfOk, OnOk};
ghost use Rattle.folded_reader.specs.Written.{written_byte, written_stack, written_line, written_text};

use itoa::Buffer;
use profile_model::{Name, Stack, StackSums};
use std::alloc::{AllocError, Global};

/// A line for each stack, in ascending order: its frames joined by `;`, a space, the value, a newline.
/// In a frame each `;` is written `:`, and each byte below 0x20 is written `?`.
pub fn write_folded(alloc: Global, values: &StackSums) -> Result<Vec<u8>, AllocError>
    ensures bytes { IfOk result (λ text. text.items ≡ written_text values.now) }
{
    let mut text = Vec::with_capacity(alloc, length_of(values))?;
    for (stack, value) in values.iter() {
        write_line(&mut text, stack, *value)?;
    }
    Ok(text)
}

// The length of the text, or the greatest number where it is larger: no memory holds either.
fn length_of(values: &StackSums) -> usize
    ensures { result ≡ min (length (written_text values.now)) usize.MAX }
{
    let mut length: usize = 0;
    for (stack, value) in values.iter() {
        length = length.saturating_add(line_length(stack, *value));
    }
    length
}

fn line_length(stack: &Stack, value: u64) -> usize
    ensures { result ≡ min (length (written_line (stack.now, value))) usize.MAX }
{
    let mut length = Buffer::new().format(value).len() + 1;
    for frame in stack.frames() {
        length = length.saturating_add(frame.len()).saturating_add(1);
    }
    length
}

fn write_line(text: &mut Vec<u8>, stack: &Stack, value: u64) -> Result<(), AllocError>
    ensures { OnOk result (text.new.items ≡ text.old.items ++ written_line (stack.now, value)) }
{
    write_stack(text, stack)?;
    text.push(b' ')?;
    text.extend_from_slice(Buffer::new().format(value).as_bytes())?;
    text.push(b'\n')?;
    Ok(())
}

fn write_stack(text: &mut Vec<u8>, stack: &Stack) -> Result<(), AllocError>
    ensures { OnOk result (text.new.items ≡ text.old.items ++ written_stack stack.now) }
{
    for (at, frame) in stack.frames().iter().enumerate() {
        if at > 0 {
            text.push(b';')?;
        }
        write_frame(text, frame)?;
    }
    Ok(())
}

fn write_frame(text: &mut Vec<u8>, frame: &Name) -> Result<(), AllocError>
    ensures { OnOk result (text.new.items ≡ text.old.items ++ map written_byte frame.now) }
{
    for byte in frame.as_bytes() {
        text.push(written(*byte))?;
    }
    Ok(())
}

fn written(byte: u8) -> u8
    ensures { result ≡ written_byte byte }
{
    match byte {
        b';' => b':',
        0..0x20 => b'?',
        _ => byte,
    }
}
