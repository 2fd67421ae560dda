// Lines, and what stands before them.
ghost use Rattle.lb_syntax.specs.Printing.{indent, line};
ghost use Rattle.lb_printing.specs.InternalPrinting.{Appends};

use std::alloc::AllocError;

/// Adds two blanks for each block that is open.
pub fn add_indent(text: &mut Vec<u8>, depth: usize) -> Result<(), AllocError>
    ensures { Appends text.old text.new (indent depth) result }
{
    for _ in 0..depth {
        text.extend_from_slice(b"  ")?;
    }
    Ok(())
}

/// Adds a line of these bytes, with so many blocks open round it.
pub fn add_line(text: &mut Vec<u8>, depth: usize, bytes: &[u8]) -> Result<(), AllocError>
    ensures { Appends text.old text.new (line depth bytes.now) result }
{
    add_indent(text, depth)?;
    text.extend_from_slice(bytes)?;
    text.push(b'\n')?;
    Ok(())
}
