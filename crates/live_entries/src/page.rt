// What is told of pages.
ghost use Rattle.std.specs.Prelude.{◌≡◌, IfOk};
ghost use Rattle.std.specs.Rc.{rc_value};
ghost use Rattle.page_ops.specs.Ops.{op_of};

use page_ops::Op;
use sig_base::NoMemory;
use std::alloc::Global;
use std::marker::Model;
use std::rc::Rc;

/// The HTML of a page. Its copies share the bytes.
pub struct PageBytes {
    shared: Rc<Vec<u8>>,
}

impl Drop for PageBytes {
    fn drop(self) {
        let PageBytes { shared: _ } = self;
    }
}

impl Model for PageBytes {
    ghost use Rattle.std.specs.Prelude.{List, ℕ};
    ghost use Rattle.std.specs.Rc.{rc_value};

    ghost Value = { List ℕ };

    ghost view = { λ p. (rc_value p.shared).items };
}

impl PageBytes {
    /// These bytes.
    pub fn of(alloc: Global, bytes: Vec<u8>) -> Result<PageBytes, NoMemory>
        ensures { IfOk result (λ p. p ≡ bytes.items) }
    {
        Ok(PageBytes {
            shared: Rc::new(alloc, bytes)?,
        })
    }

    /// The bytes.
    pub fn as_slice(&self) -> &[u8]
        ensures { result.now ≡ self.now }
    {
        &self.shared
    }

    /// The same bytes, shared.
    pub fn copy(&self) -> Result<PageBytes, NoMemory>
        ensures { IfOk result (λ p. p ≡ self.now) }
    {
        Ok(PageBytes {
            shared: self.shared.clone()?,
        })
    }
}

/// An operation on a page. Contracts see what it does, and not where its parts lie in memory.
pub struct PageOp {
    op: Op,
}

impl Drop for PageOp {
    fn drop(self) {
        let PageOp { op: _ } = self;
    }
}

impl Model for PageOp {
    ghost use Rattle.page_model.specs.Replay.{Op};
    ghost use Rattle.page_ops.specs.Ops.{op_of};
    ghost use Rattle.live_entries.specs.Codes.{op_code};

    ghost Value = { Op };

    ghost coded = { op_code };

    ghost view = { λ p. op_of p.op };
}

impl PageOp {
    /// This operation.
    pub fn of(op: Op) -> PageOp
        ensures { result ≡ op_of op }
    {
        PageOp { op }
    }

    /// The operation.
    pub fn as_op(&self) -> &Op
        ensures { op_of result.now ≡ self.now }
    {
        &self.op
    }
}
