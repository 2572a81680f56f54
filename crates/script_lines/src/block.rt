// The lines of a block.
ghost use Rattle.std.specs.Prelude.{◌≡◌, ◌<◌, ◌^◌, length, map, IfOk};
ghost use Rattle.script_lines.specs.Lines.{kept_lines, last_number};
ghost use Rattle.script_lines.specs.Views.{line_of};

use crate::NumberedLine;
use crate::line::next_kept;
use sig_base::NoMemory;
use std::alloc::Global;

/// The lines of a block that aren't passed over, numbered from 0.
///
/// # Errors
///
/// `NoMemory` where they find no room.
pub fn lines_of(alloc: Global, block: &[u8]) -> Result<Vec<NumberedLine<'_>>, NoMemory>
    requires { length block.now < 2 ^ 32 }
    ensures { IfOk result (λ v. map line_of v.items ≡ kept_lines 0 block.now) }
{
    let mut lines = Vec::new(alloc);
    let mut at = 0;
    let mut number = 0;
    while let Some((line, next, after)) = next_kept(block, at, number) {
        lines.push(line)?;
        at = next;
        number = after;
    }
    Ok(lines)
}

/// The number of the last of lines; 0 where there is none.
pub fn last_number(lines: &[NumberedLine]) -> u32
    ensures { result ≡ last_number (map line_of lines.now) }
{
    if lines.is_empty() {
        0
    } else {
        lines[lines.len() - 1].number
    }
}
