//! Deques for workers.

ghost use Rattle.std.specs.Prelude.{◌≡◌, ◌≤◌, ℕ, IfOk, map, vec_len};
ghost use Rattle.terrain.specs.Places.{IsAt};
ghost use Rattle.wall_steal.specs.Deques.{without, own_deque, deque_behind, other_deques, HasRoom};

use super::hands::Hands;
use super::other::Other;
use class_shards::Naming;
use std::alloc::{AllocError, Global};
use terrain::{Numbers, Terrain};

/// So many empty deques, none of which knows another.
fn alone_each<T: Terrain, N: Naming>(
    alloc: Global,
    workers: u32,
) -> Result<Vec<Hands<T, N>>, AllocError>
    ensures len { IfOk result (λ v. vec_len v ≡ workers) }
    ensures room { IfOk result (λ v. (i : ℕ) (h : _) → IsAt v.items i h → HasRoom h) }
{
    let mut all = Vec::with_capacity(alloc, workers as usize)?;
    for _worker in 0..workers {
        let hands = Hands::alone(alloc)?;
        all.push(hands)?;
    }
    Ok(all)
}

/// The stealers of all deques but that of one worker, in rising order.
fn others_of<T: Terrain, N: Naming>(
    alloc: Global,
    all: &[Hands<T, N>],
    own: usize,
) -> Result<Vec<Other<T, N>>, AllocError>
    ensures { IfOk result (λ v. map deque_behind v.items ≡ without own (map own_deque all.now)) }
{
    let mut others = Vec::with_capacity(alloc, all.len())?;
    for (i, hands) in all.iter().enumerate() {
        if i != own {
            let other = hands.share()?;
            others.push(other)?;
        }
    }
    Ok(others)
}

/// The hands of so many workers: each has a deque, the stealers of all others in rising order, and room for a cause.
pub fn hands_of<T: Terrain, N: Naming>(
    alloc: Global,
    workers: u32,
) -> Result<Vec<Hands<T, N>>, AllocError>
    requires { (1 ≤ workers) × (workers ≤ 16) }
    ensures len { IfOk result (λ v. vec_len v ≡ workers) }
    ensures room { IfOk result (λ v. (i : ℕ) (h : _) → IsAt v.items i h → HasRoom h) }
    ensures others { IfOk result (λ v. (i : ℕ) (h : _) → IsAt v.items i h → other_deques h ≡ without i (map own_deque v.items)) }
{
    let mut all = alone_each(alloc, workers)?;
    for i in 0..all.len() {
        let others = others_of(alloc, all.as_slice(), i)?;
        all[i].others = others;
    }
    Ok(all)
}
