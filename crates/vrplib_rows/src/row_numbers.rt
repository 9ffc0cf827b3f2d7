//! The numbers of a section's next row.
ghost use Rattle.std.specs.Prelude.{◌≡◌, true, List, ℤ, Ok, None, IfOk, length};
ghost use Rattle.vrplib_model.specs.Lines.{tokens};
ghost use Rattle.vrplib_rows.specs.inside.NextRows.{Follows};
ghost use Rattle.vrplib_model.specs.Numbers.{field_values, first_broken};
ghost use Rattle.vrplib_model.specs.RowFaults.{has_right_length};
ghost use Rattle.vrplib_model.specs.Rows.{fields, row_numbers};

use crate::next_row::NextRow;
use crate::numbers::field_value;
use crate::tokens::next_token;
use std::alloc::AllocError;
use vrp_num::Rounding;
use vrplib_model::Rule;

/// Reads the tokens of a line as the numbers of the next row, or gives the first rule that one of them breaks.
pub(crate) fn read_numbers(
    mode: Rounding,
    next: NextRow,
    line: &[u8],
    row: &mut Vec<i64>,
) -> Result<Option<Rule>, AllocError>
    requires { has_right_length next.section (tokens line.now) ≡ true }
    ensures fault { IfOk result (λ fault. (rows : List (List ℤ)) → Follows next rows
        → fault ≡ first_broken (field_values mode (fields next.section rows (length (tokens line.now))) (tokens line.now))) }
    ensures numbers { result ≡ Ok None → (rows : List (List ℤ)) → Follows next rows
        → row.new.items ≡ row_numbers mode next.section rows (tokens line.now) }
{
    row.clear();
    let mut rest = line;
    while let Some((token, after)) = next_token(rest) {
        match field_value(mode, next.field(row.len()), token) {
            Ok(number) => row.push(number)?,
            Err(rule) => return Ok(Some(rule)),
        }
        rest = after;
    }
    Ok(None)
}
