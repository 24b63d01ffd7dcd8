//! Operations that are shared.

ghost use Rattle.std.specs.Prelude.{◌≡◌, IfOk};

use qc_sql::tables::{Ops, RowOp};
use qc_types::NoMemory;
use std::alloc::Global;
use std::marker::Model;
use std::sync::Arc;

/// The operations of a commit, in order. All who have them share them, and nobody changes them. Contracts see the list.
#[derive(Drop)]
pub struct SharedOps {
    ops: Arc<Ops>,
}

impl Model for SharedOps {
    ghost use Rattle.std.specs.Prelude.{List};
    ghost use Rattle.qc_sql.specs.declared.tables.RowOp.{RowOp};

    ghost Value = { List RowOp };

    ghost view = { λ shared. shared.ops.value };
}

impl SharedOps {
    /// These operations, which can be shared from now on. Constant time.
    pub fn of(alloc: Global, ops: Ops) -> Result<SharedOps, NoMemory>
        ensures { IfOk result (λ shared. shared ≡ ops) }
    {
        Ok(SharedOps {
            ops: Arc::new(alloc, ops)?,
        })
    }

    /// The same operations for one owner more. Constant time. Fails where they are shared too often to be counted.
    pub fn share(&self) -> Result<SharedOps, NoMemory>
        ensures { IfOk result (λ shared. shared ≡ self.now) }
    {
        Ok(SharedOps {
            ops: Arc::try_clone(&self.ops)?,
        })
    }

    /// The list of them, borrowed.
    pub fn list(&self) -> &Ops
        ensures { result.now ≡ self.now }
    {
        &self.ops
    }

    /// The operations, borrowed, in their order.
    pub fn items(&self) -> &[RowOp]
        ensures { result.now ≡ self.now }
    {
        self.ops.items()
    }
}
