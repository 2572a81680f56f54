// Names that were heard, behind others.
ghost use Rattle.std.specs.Prelude.{◌≡◌, ◌++◌, map, OnOk};
ghost use Rattle.tpl_model.specs.PageUpdates.PageMemos.{all_names};
ghost use Rattle.tpl_model.specs.KeptLines.Kept.{heard_of};

use sig_base::{NoMemory, NodeId};
use tpl_model::Heard;

/// Names behind others.
///
/// # Errors
///
/// `NoMemory` alone.
pub(crate) fn put_all(out: &mut Vec<NodeId>, ids: &[NodeId]) -> Result<(), NoMemory>
    ensures { OnOk result (out.new.items ≡ out.old.items ++ ids.now) }
{
    for id in ids {
        out.push(*id)?;
    }
    Ok(())
}

/// The names of attributes behind others.
///
/// # Errors
///
/// `NoMemory` alone.
pub(crate) fn put_each(out: &mut Vec<NodeId>, all: &[Heard]) -> Result<(), NoMemory>
    ensures { OnOk result (out.new.items ≡ out.old.items ++ all_names (map heard_of all.now)) }
{
    for heard in all {
        put_all(out, &heard.names)?;
    }
    Ok(())
}
