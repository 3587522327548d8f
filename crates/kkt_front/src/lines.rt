//! The lines of a deck. Each is pushed behind what was written before. What is named is counted
//! from 0 here, and from 1 in the text.
ghost use Rattle.std.specs.Prelude.{◌≡◌, ◌<◌, ◌≤◌, ◌++◌, OnOk, codes};
ghost use Rattle.std.specs.Fmt.{decimal, signed_decimal};
ghost use Rattle.deck_gen.specs.Generator.{joined};
ghost use Rattle.kkt_front.specs.DeckTexts.{cost_line, entry_line, numbered, numbered_line, pair_line, right_line, value_end};

use itoa::Buffer;
use std::alloc::AllocError;

pub fn push_text(out: &mut Vec<u8>, text: &[u8]) -> Result<(), AllocError>
    ensures { OnOk result (out.new.items ≡ out.old.items ++ text.now) }
{
    out.extend_from_slice(text)
}

fn push_numbered(out: &mut Vec<u8>, front: &[u8], number: u32) -> Result<(), AllocError>
    ensures { OnOk result (out.new.items ≡ out.old.items ++ numbered front.now number) }
{
    push_text(out, front)?;
    out.extend_from_slice(Buffer::new().format(u64::from(number) + 1).as_bytes())
}

fn push_value_end(out: &mut Vec<u8>, value: i64) -> Result<(), AllocError>
    ensures { OnOk result (out.new.items ≡ out.old.items ++ value_end value) }
{
    push_text(out, b" ")?;
    out.extend_from_slice(Buffer::new().format(value).as_bytes())?;
    push_text(out, b"\n")
}

fn push_numbered_line(out: &mut Vec<u8>, front: &[u8], number: u32) -> Result<(), AllocError>
    ensures { OnOk result (out.new.items ≡ out.old.items ++ numbered_line front.now number) }
{
    push_numbered(out, front, number)?;
    push_text(out, b"\n")
}

pub fn push_cost_line(
    out: &mut Vec<u8>,
    column: &[u8],
    number: u32,
    value: i64,
) -> Result<(), AllocError>
    ensures { OnOk result (out.new.items ≡ out.old.items ++ cost_line column.now number value) }
{
    push_numbered(out, column, number)?;
    push_text(out, b" cost")?;
    push_value_end(out, value)
}

/// The line of an entry, where it is not zero.
pub fn push_entry_line(
    out: &mut Vec<u8>,
    column: &[u8],
    j: u32,
    row: &[u8],
    i: u32,
    value: i64,
) -> Result<(), AllocError>
    ensures { OnOk result (out.new.items ≡ out.old.items ++ entry_line column.now j row.now i value) }
{
    if value == 0 {
        return Ok(());
    }
    push_numbered(out, column, j)?;
    push_numbered(out, row, i)?;
    push_value_end(out, value)
}

/// The line of a right-hand side, where it is not zero.
pub fn push_right_line(out: &mut Vec<u8>, row: &[u8], i: u32, value: i64) -> Result<(), AllocError>
    ensures { OnOk result (out.new.items ≡ out.old.items ++ right_line row.now i value) }
{
    if value == 0 {
        return Ok(());
    }
    push_numbered(out, row, i)?;
    push_value_end(out, value)
}

fn push_pair_line(out: &mut Vec<u8>, row: &[u8], column: &[u8], i: u32) -> Result<(), AllocError>
    ensures { OnOk result (out.new.items ≡ out.old.items ++ pair_line row.now column.now i) }
{
    push_numbered(out, b" p", i)?;
    push_numbered(out, row, i)?;
    push_numbered(out, column, i)?;
    push_text(out, b"\n")
}

/// So many lines, each with this text and its number.
pub fn push_numbered_lines(out: &mut Vec<u8>, front: &[u8], count: u32) -> Result<(), AllocError>
    ensures { OnOk result (out.new.items ≡ out.old.items ++ joined (numbered_line front.now) count) }
{
    for number in 0..count {
        push_numbered_line(out, front, number)?;
    }
    Ok(())
}

/// So many pairs of a row and a column.
pub fn push_pair_lines(
    out: &mut Vec<u8>,
    row: &[u8],
    column: &[u8],
    count: u32,
) -> Result<(), AllocError>
    ensures { OnOk result (out.new.items ≡ out.old.items ++ joined (pair_line row.now column.now) count) }
{
    for pair in 0..count {
        push_pair_line(out, row, column, pair)?;
    }
    Ok(())
}
