//! Why workers halt.

ghost use Rattle.wall_steal.specs.Causes.{IsCause, cause_has_one_proof};

use class_shards::Naming;
use receipt_log::Receipt;
use std::alloc::Global;
use std::marker::PhantomData;
use std::snapshot::Snapshot;
use std::sync::Arc;
use terrain::{Numbers, Terrain};

/// A reached key that is stuck, or one of whose walls is; a receipt that has seen more reached keys than the limit, which contracts alone read; or want of memory.
#[derive(Drop)]
pub enum HaltCause<T: Terrain> {
    Wide {
        key: Arc<T::Key, Global>,
        fault: T::Fault,
    },
    Limit(Snapshot<Receipt<T::Key>>),
    Memory,
}

/// A cause that is true of the run.
#[derive(Drop)]
pub(crate) struct Known<T: Terrain, N: Naming> {
    pub(crate) cause: HaltCause<T>,
    pub(crate) of: PhantomData<N>,
    ghost holds: { IsCause (T.has_walls N.terrain) (T.leads N.terrain) (T.is_stuck N.terrain) (T.is_stuck_at N.terrain) N.root N.limit cause } by { cause_has_one_proof (T.has_walls N.terrain) (T.leads N.terrain) (T.is_stuck N.terrain) (T.is_stuck_at N.terrain) N.root N.limit cause },
}
