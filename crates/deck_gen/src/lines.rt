//! The lines of a generated deck. Each is pushed behind what was written before. Rows, columns and
//! pairs are counted from 0 here, and from 1 in the text.
ghost use Rattle.std.specs.Prelude.{◌≡◌, ◌<◌, ◌≤◌, ◌++◌, OnOk, codes};
ghost use Rattle.std.specs.Fmt.{decimal};
ghost use Rattle.deck_gen.specs.Generator.{name_line, row_line, cost_line, entry_line, right_side_line, pair_line};

use crate::sizes::Sizes;
use itoa::Buffer;
use std::alloc::AllocError;

pub fn push_text(out: &mut Vec<u8>, text: &[u8]) -> Result<(), AllocError>
    ensures { OnOk result (out.new.items ≡ out.old.items ++ text.now) }
{
    out.extend_from_slice(text)
}

/// A text and behind it a number.
fn push_numbered(out: &mut Vec<u8>, text: &[u8], number: u64) -> Result<(), AllocError>
    ensures { OnOk result (out.new.items ≡ out.old.items ++ (text.now ++ decimal number)) }
{
    push_text(out, text)?;
    out.extend_from_slice(Buffer::new().format(number).as_bytes())
}

pub fn push_name_line(out: &mut Vec<u8>, sizes: Sizes) -> Result<(), AllocError>
    ensures { OnOk result (out.new.items ≡ out.old.items ++ name_line sizes) }
{
    push_numbered(out, b"NAME gen-", sizes.seed)?;
    push_numbered(out, b"-", u64::from(sizes.columns))?;
    push_numbered(out, b"-", u64::from(sizes.rows))?;
    push_numbered(out, b"-", u64::from(sizes.pairs))?;
    push_text(out, b"\n")
}

pub fn push_row_line(out: &mut Vec<u8>, row: u32) -> Result<(), AllocError>
    ensures { OnOk result (out.new.items ≡ out.old.items ++ row_line row) }
{
    push_numbered(out, b" G r", u64::from(row) + 1)?;
    push_text(out, b"\n")
}

pub fn push_cost_line(out: &mut Vec<u8>, column: u32, value: u32) -> Result<(), AllocError>
    ensures { OnOk result (out.new.items ≡ out.old.items ++ cost_line column value) }
{
    push_numbered(out, b" x", u64::from(column) + 1)?;
    push_numbered(out, b" cost ", u64::from(value))?;
    push_text(out, b"\n")
}

/// The line of an entry, where it is not zero.
pub fn push_entry_line(
    out: &mut Vec<u8>,
    column: u32,
    row: u32,
    value: u32,
) -> Result<(), AllocError>
    ensures { OnOk result (out.new.items ≡ out.old.items ++ entry_line column row value) }
{
    if value == 0 {
        return Ok(());
    }
    push_numbered(out, b" x", u64::from(column) + 1)?;
    push_numbered(out, b" r", u64::from(row) + 1)?;
    push_numbered(out, b" ", u64::from(value))?;
    push_text(out, b"\n")
}

pub fn push_right_side_line(out: &mut Vec<u8>, row: u32, value: u32) -> Result<(), AllocError>
    ensures { OnOk result (out.new.items ≡ out.old.items ++ right_side_line row value) }
{
    push_numbered(out, b" rhs r", u64::from(row) + 1)?;
    push_numbered(out, b" ", u64::from(value))?;
    push_text(out, b"\n")
}

pub fn push_pair_line(out: &mut Vec<u8>, pair: u32) -> Result<(), AllocError>
    ensures { OnOk result (out.new.items ≡ out.old.items ++ pair_line pair) }
{
    let pair = u64::from(pair);
    push_numbered(out, b" p", pair + 1)?;
    push_numbered(out, b" COL x", 2 * pair + 1)?;
    push_numbered(out, b" COL x", 2 * pair + 2)?;
    push_text(out, b"\n")
}
