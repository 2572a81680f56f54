// The names that are kept of lines, in the order in which they were read.
ghost use Rattle.std.specs.Prelude.{◌≡◌, ◌++◌, take, OnOk};
ghost use Rattle.tpl_model.specs.PageUpdates.PageMemos.{names};
ghost use Rattle.tpl_model.specs.KeptLines.Kept.{kept};

use crate::listening::{put_all, put_each, row_count};
use sig_base::{NoMemory, NodeId};
use tpl_model::PageMemo;

// What is kept of as many rows as there are; past the end of the table none is one.
#[tactic(auto, using(std::proofs::lemmas::List::take_all))]
fn as_many(rows: &[PageMemo], count: usize) -> &[PageMemo]
    ensures { result.now ≡ take count rows.now }
{
    if count < rows.len() {
        &rows[..count]
    } else {
        rows
    }
}

/// The names of what is kept behind others.
pub(crate) fn put_names(out: &mut Vec<NodeId>, memo: &PageMemo) -> Result<(), NoMemory>
    ensures { OnOk result (out.new.items ≡ out.old.items ++ names (kept memo.now)) }
{
    match memo {
        PageMemo::Unread => Ok(()),
        PageMemo::Blank => Ok(()),
        PageMemo::Line(line, rest) => {
            put_all(out, &line.names)?;
            put_names(out, rest)?;
            Ok(())
        }
        PageMemo::Element(all, inner, rest) => {
            put_each(out, all)?;
            put_names(out, inner)?;
            put_names(out, rest)?;
            Ok(())
        }
        PageMemo::Either(first, second, rest) => {
            put_names(out, first)?;
            put_names(out, second)?;
            put_names(out, rest)?;
            Ok(())
        }
        PageMemo::Branch(test, inner, rest) => {
            put_all(out, &test.names)?;
            put_names(out, inner)?;
            put_names(out, rest)?;
            Ok(())
        }
        PageMemo::Loop(line, rows, rest) => {
            put_all(out, &line.names)?;
            let count = row_count(&line.outcome);
            for row in as_many(rows, count) {
                put_names(out, row)?;
            }
            put_names(out, rest)?;
            Ok(())
        }
    }
}
