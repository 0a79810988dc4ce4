// Texts as remarks.
ghost use Rattle.std.specs.Prelude.{◌≡◌, ◌≢◌, ◌++◌, OnOk};
ghost use Rattle.blob_explain.specs.Explained.{GoesOn, Remarks, remark};

use std::alloc::AllocError;

/// The most characters of a line, after the sign that begins it.
const WIDTH: usize = 78;

/// Adds a text as remarks, a line each. One that is too wide goes on in further ones.
pub(crate) fn push_remarks(text: &str, to: &mut Vec<u8>) -> Result<(), AllocError>
    ensures { OnOk result (Remarks to.old.items to.new.items) }
{
    let mut line = Vec::new(*to.allocator());
    let mut width = 0;
    for byte in text.as_bytes() {
        take(*byte, &mut width, &mut line, to)?;
    }
    Ok(())
}

fn take(byte: u8, width: &mut usize, line: &mut Vec<u8>, to: &mut Vec<u8>) -> Result<(), AllocError>
    ensures { OnOk result (GoesOn to.old.items line.old.items to.new.items line.new.items) }
{
    if byte == b'\n' {
        return end_line(width, line, to);
    }
    push_byte(byte, width, line, to)
}

/// Adds the line that was begun, and begins another.
#[tactic(auto, using(crate::proofs::Explaining::line_ended))]
fn end_line(width: &mut usize, line: &mut Vec<u8>, to: &mut Vec<u8>) -> Result<(), AllocError>
    ensures { OnOk result (GoesOn to.old.items line.old.items to.new.items line.new.items) }
{
    push_remark(line, to)?;
    line.clear();
    *width = 0;
    Ok(())
}

#[tactic(auto, using(crate::proofs::Explaining::byte_taken))]
fn push_byte(
    byte: u8,
    width: &mut usize,
    line: &mut Vec<u8>,
    to: &mut Vec<u8>,
) -> Result<(), AllocError>
    requires { byte ≢ 10 }
    ensures { OnOk result (GoesOn to.old.items line.old.items to.new.items line.new.items) }
{
    // All bytes of a character stay on one line: those after its first begin with the bits 10.
    let is_first = byte & 0xc0 != 0x80;
    make_room(is_first, width, line, to)?;
    line.push(byte)?;
    *width = width.saturating_add(usize::from(is_first));
    Ok(())
}

/// Ends the line if it is full and another character begins.
fn make_room(
    is_first: bool,
    width: &mut usize,
    line: &mut Vec<u8>,
    to: &mut Vec<u8>,
) -> Result<(), AllocError>
    ensures { OnOk result (GoesOn to.old.items line.old.items to.new.items line.new.items) }
{
    if !is_first || *width < WIDTH {
        return Ok(());
    }
    end_line(width, line, to)
}

fn push_remark(line: &[u8], to: &mut Vec<u8>) -> Result<(), AllocError>
    ensures { OnOk result (to.new.items ≡ to.old.items ++ remark line.now) }
{
    to.extend_from_slice(b"# ")?;
    to.extend_from_slice(line)?;
    to.push(b'\n')?;
    Ok(())
}
