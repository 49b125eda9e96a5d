ghost use Rattle.std.specs.Prelude.{◌≡◌, pos, ◌∷◌, [], IfOk};
ghost use Rattle.receipt_log.specs.Logs.{name_of_log, list_of, log_of, place_of, seen_by};

use super::*;
use std::alloc::{AllocError, Global};
use std::process::Abort;
use std::test::*;

/// A receipt of the first of two entries, in whose log there are three by now.
fn noted_before_the_third(alloc: Global) -> Result<(LogKeeper<u32>, Receipt<u32>), AllocError>
    ensures log { IfOk result (λ r. log_of r.1 ≡ name_of_log r.0) }
    ensures list { IfOk result (λ r. list_of r.0 ≡ (pos 7 ∷ []) ∷ (pos 9 ∷ []) ∷ (pos 11 ∷ []) ∷ []) }
    ensures seen { IfOk result (λ r. seen_by r.1 ≡ (pos 7 ∷ []) ∷ (pos 9 ∷ []) ∷ []) }
    ensures place { IfOk result (λ r. place_of r.1 ≡ 0) }
{
    let mut log = LogKeeper::start(alloc)?;
    log.append(&7u32);
    log.append(&9u32);
    let receipt = log.note(0);
    log.append(&11u32);
    Ok((log, receipt))
}

#[test]
fn an_old_receipt_meets_its_log(rt: HostRuntime) -> Result<(), Fail> {
    rule_says();
    let (mut log, mut receipt) = noted_before_the_third(rt.alloc())?;
    log.meet(&mut receipt);
    assert_eq!(rt; (receipt.place(), log.look()), (0, 3));
    Ok(())
}
