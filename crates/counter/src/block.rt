// The answer block: constraint number, density, set.
ghost use Rattle.std.specs.Prelude.{◌≡◌, ◌++◌, ◌+◌, ◌<◌, ◌≤◌, ◌/◌, ◌%◌, length, set};
ghost use Rattle.limits.specs.Limits.{most_objects};
ghost use Rattle.routes.specs.Marked.{members};
ghost use Rattle.counter.specs.Outcome.{over};
ghost use Rattle.counter.specs.Written.{block_bytes, FindingWritten};
ghost use Rattle.counter.specs.Block.{two, complement, numbers_size, set_size, set_byte, set_bytes, block_size};

use codes::Answer;
use limits::OBJECTS;
use routes::search::Marks;

// The bytes of two numbers, of a set and of a block.
pub const TWO_NUMBERS: usize = 4;

const SET: usize = OBJECTS / 8;

pub const BLOCK: usize = TWO_NUMBERS + SET;

// A block as values: a constraint, its density and its set, which is marked.
#[derive(Clone, Copy)]
pub struct Block {
    pub constraint: usize,
    pub density: i32,
    pub marks: Marks,
}

impl Block {
    // The density as 16-bit two's complement.
    #[tactic(auto, unfolding(crate::specs::Block::complement))]
    fn two_complement(&self) -> usize
        ensures { result ≡ complement self.now.density }
    {
        // A natural number, as `put_numbers` takes it. A remainder is not negative; no From leads from i32 to usize.
        self.density.rem_euclid(65536) as usize
    }
}

// Writes a number in two bytes, the lower first.
#[tactic(auto, using(crate::proofs::block::Writing::two_written))]
pub fn put_two(buffer: &mut [u8], at: usize, n: usize)
    requires { at + 1 < length buffer.old }
    ensures { buffer.new ≡ set (set buffer.old at (n % 256)) (at + 1) (n / 256 % 256) }
{
    buffer[at..at + 2].copy_from_slice(&n.to_le_bytes()[..2]);
}

// Writes two numbers at the front.
pub fn put_numbers(x: usize, y: usize, buffer: &mut [u8])
    requires { numbers_size ≤ length buffer.old }
    ensures { buffer.new ≡ over (two x ++ two y) buffer.old }
{
    put_two(buffer, 0, x);
    put_two(buffer, 2, y);
}

// Byte j of the set of marked objects: object 8j + b at bit b.
#[tactic(auto, using(crate::proofs::block::Writing::bit_laws), unfolding(crate::specs::Block::set_byte))]
fn set_byte(marks: &Marks, j: usize) -> u8
    requires { j < set_size }
    ensures { result ≡ set_byte most_objects (members marks.now.objects) j }
{
    let mut byte = 0;
    // Over a slice of the marks its proof did not close.
    for b in 0..8 {
        if marks.objects[8 * j + b] > 0 {
            byte += 1 << b;
        }
    }
    byte
}

// Writes the set of marked objects.
#[tactic(auto, using(crate::proofs::block::Writing::byte_laws))]
pub fn put_set(marks: &Marks, part: &mut [u8])
    requires { set_size ≤ length part.old }
    ensures { part.new ≡ over (set_bytes most_objects (members marks.now.objects)) part.old }
{
    for (j, byte) in part[..SET].iter_mut().enumerate() {
        *byte = set_byte(marks, j);
    }
}

// Writes a block.
#[tactic(auto, using(crate::proofs::block::Writing::block_over), unfolding(crate::specs::Block::block))]
pub fn put_block(block: Block, buffer: &mut [u8])
    requires { block_size ≤ length buffer.old }
    ensures { buffer.new ≡ over (block_bytes block) buffer.old }
{
    put_numbers(block.constraint, block.two_complement(), buffer);
    put_set(&block.marks, &mut buffer[TWO_NUMBERS..]);
}

// Writes the block that was found; or answers none, and writes nothing.
pub fn put_finding(finding: Option<Block>, buffer: &mut [u8]) -> Answer
    requires { block_size ≤ length buffer.old }
    ensures { FindingWritten finding buffer.old result buffer.new }
{
    let Some(block) = finding else {
        return Answer::None;
    };
    put_block(block, buffer);
    Answer::Given
}
