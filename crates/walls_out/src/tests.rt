ghost use Rattle.std.specs.Prelude.{◌≡◌, ◌∷◌, [], Some, None, false};
ghost use Rattle.walls_out.specs.declared.entry.Entry.TheVariants.{Root};
ghost use Rattle.walls_out.specs.Seats.{name_of, count_of, view_of};
ghost use Rattle.walls_out.specs.Views.{view};

use super::*;
use std::process::Abort;
use std::test::*;

#[test]
fn root_and_three_walls(rt: HostRuntime) -> Result<(), Fail> {
    rule_says();
    let (count, mut first, mut keepers) = Count::start(rt.alloc(), 2)?;
    let root = first.split(&count);
    let keeper = &mut keepers[0];
    keeper.join(&count, root);
    assert_eq!(rt; three_walls(&rt, &count, keeper), 0);
    Ok(())
}

fn three_walls(rt: &impl Abort, count: &Count, keeper: &mut CountSeat) -> u64
    requires name { count_of keeper.old ≡ name_of count.now }
    requires root { view_of keeper.old ≡ view (Some 0) 0 [] (Root ∷ []) false None }
{
    keeper.raise(count, 3);
    keeper.lower(count);
    keeper.lower(count);
    assert_eq!(rt; keeper.look(count), 2);
    keeper.lower(count);
    assert_eq!(rt; keeper.look(count), 1);
    keeper.lower_root(count);
    keeper.look(count)
}

#[test]
fn sixty_four_keepers(rt: HostRuntime) -> Result<(), Fail> {
    let (count, mut first, keepers) = Count::start(rt.alloc(), 64)?;
    assert_eq!(rt; keepers.len(), 64);
    assert_eq!(rt; first.look(&count), 1);
    Ok(())
}

#[test]
fn a_raise_at_the_bound(rt: HostRuntime) -> Result<(), Fail> {
    let (count, mut first, mut keepers) = Count::start(rt.alloc(), 1)?;
    let root = first.split(&count);
    let keeper = &mut keepers[0];
    keeper.join(&count, root);
    assert_eq!(rt; raised_to_the_bound(&count, keeper), (1 << 55) + 1);
    Ok(())
}

fn raised_to_the_bound(count: &Count, keeper: &mut CountSeat) -> u64
    requires name { count_of keeper.old ≡ name_of count.now }
    requires root { view_of keeper.old ≡ view (Some 0) 0 [] (Root ∷ []) false None }
{
    keeper.raise(count, 1 << 55);
    keeper.look(count)
}
