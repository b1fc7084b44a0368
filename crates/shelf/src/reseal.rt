// Making a file of the blocks of which only the data stands in its place.
ghost use Rattle.std.specs.Prelude.{◌≡◌, ◌+◌, ◌*◌, ◌<◌, ◌≤◌, ◌++◌, length, take, drop};
ghost use Rattle.numbers.specs.Limit.{block_bytes, block_data, most_blocks};
ghost use Rattle.shelf.specs.Answers.{walk_of};
ghost use Rattle.shelf.specs.Block.{bytes_from, block, used_in, name_after, blocks_for, cut};
ghost use Rattle.shelf.specs.Judge.{byte_of, blocks};
ghost use Rattle.shelf.specs.Promises.{walk_on, Fewer, Followed};

use crate::answers::{Reached, Walk};
use crate::block::{seal, used_in};
use crate::judge::File;
use crate::stream::{name_after, walk_on};
use numbers::limit;

// Makes block i of a stream of n bytes in its place, and follows the records to its end.
fn seal_block(file: &mut [u8], n: usize, i: usize, w: Walk) -> Walk
    requires { (block_data * i < n)
        × (block_bytes * (i + 1) ≤ length file.old)
        × (i < most_blocks)
        × Followed i (walk_of w) }
    ensures made { file.new
        ≡ take (block_bytes * i) file.old
        ++ block i (name_after (byte_of file.old) (block_data * i) (block_data * i + used_in n i) (walk_of w))
        (bytes_from (byte_of file.old) (block_data * i) (used_in n i))
        ++ drop (block_bytes * (i + 1)) file.old }
    ensures followed { walk_of result
        ≡ walk_on (byte_of file.old) (block_data * i + used_in n i) (walk_of w) }
{
    let lo = limit::BLOCK_DATA * i;
    let used = used_in(n, i);
    let hi = lo + used;
    let first = name_after(File(file), i, hi, w);
    let next = walk_on(File(file), hi, w);
    let from = limit::BLOCK_BYTES * i;
    let to = from + limit::BLOCK_BYTES;
    seal(&mut file[from..to], i as u32, used, first);
    next
}

// Makes the m blocks of a stream of n bytes in their places.
pub fn seal_blocks(file: &mut [u8], n: usize, m: usize)
    requires { (m ≡ blocks_for n) × (block_bytes * m ≤ length file.old) × (m ≤ most_blocks) }
    ensures { file.new ≡ cut (byte_of file.old) n m ++ drop (block_bytes * m) file.old }
{
    let mut w = Ok(Reached { place: 0, count: 0 });
    for i in 0..m {
        w = seal_block(file, n, i, w);
    }
}
