//! The shards of codes.

ghost use Rattle.std.specs.Prelude.{◌≡◌, ◌+◌, ◌%◌, ◌<◌, ℤ, pos, unsigned_abs};
ghost use Rattle.std.specs.Int.{int_rem_euclid};
ghost use Rattle.class_node.specs.Shards.{shard_number};

/// The remainder from 0 of a number modulo 16.
fn residue(n: i128) -> u32
    ensures value { result ≡ unsigned_abs (int_rem_euclid n (pos 16)) }
    ensures low { result < 16 }
{
    n.rem_euclid(16) as u32
}

/// The remainder of a sum, from that of the one number and the other number.
fn added(shard: u32, n: i128) -> u32
    requires { shard < 16 }
    ensures { result ≡ (shard + unsigned_abs (int_rem_euclid n (pos 16))) % 16 }
{
    (shard + residue(n)) % 16
}

/// The sum of a code's numbers at the places 0, 10, 21, 32 and so on by elevens, modulo 16 with the remainder from 0.
pub(crate) fn shard_number(numbers: &[i128]) -> u32
    ensures { result ≡ shard_number numbers.now }
{
    let mut shard = match numbers.first() {
        Some(first) => residue(*first),
        None => 0,
    };
    for i in 0..numbers.len() / 11 {
        shard = added(shard, numbers[10 + 11 * i]);
    }
    shard
}
