// The rules for one block, and the scan for the block of the page that would leave.
ghost use Rattle.std.specs.Prelude.{◌≡◌, None};
ghost use Rattle.blocks.specs.First.{FirstAmong};
ghost use Rattle.blocks.specs.Blocks.{outside as is_outside, refreshed, before, candidate as is_candidate, lesser as lesser_of, scanned};

use crate::block::Block;

impl Block {
    // Whether the page is outside its correlated reference period at a time.
    fn outside(self, t: u32, crp: u16) -> bool
        ensures { result ≡ is_outside crp t self }
    {
        t.saturating_sub(self.last) > crp as u32
    }

    // The block after a hit at a time.
    pub fn refreshed(self, t: u32, crp: u16) -> Block
        ensures { result ≡ refreshed crp t self }
    {
        if self.outside(t, crp) {
            return Block {
                hist1: t,
                hist2: self.hist1,
                last: t,
                ..self
            };
        }
        Block { last: t, ..self }
    }

    // Whether this page is to leave before another: not the order of the fields, which a derive would take.
    fn before(self, other: Block) -> bool
        ensures { result ≡ before self other }
    {
        (self.hist2, self.last, self.page) < (other.hist2, other.last, other.page)
    }
}

// Whether a page may leave: it is listed and, where a period is given, outside it. No closure stands for the
// period, since both clauses of the scan name it.
fn candidate(block: Block, listed: &[u32], period: Option<u16>, t: u32) -> bool
    ensures { result ≡ is_candidate listed.now period t block }
{
    if !listed.contains(&block.page) {
        return false;
    }
    match period {
        Some(crp) => block.outside(t, crp),
        None => true,
    }
}

// Of the best block so far, if any, and another, the one that is to leave first: two cases, which a map_or
// would not make plainer.
fn lesser(best: Option<Block>, block: Block) -> Block
    ensures { result ≡ lesser_of best block }
{
    match best {
        Some(other) => {
            if block.before(other) {
                return block;
            }
            other
        }
        None => block,
    }
}

// The block that is to leave first among those of the candidates. The fold is the scan that the
// algorithm prints, so it answers both clauses: `min_by_key` would want the order proved a second time.
pub fn first_to_leave(
    blocks: &[Block],
    listed: &[u32],
    period: Option<u16>,
    t: u32,
) -> Option<Block>
    ensures first { FirstAmong blocks.now (is_candidate listed.now period t) result }
    ensures value { result ≡ scanned (is_candidate listed.now period t) None blocks.now }
{
    blocks
        .iter()
        .filter(|block| candidate(**block, listed, period, t))
        .fold(None, |best, block| Some(lesser(best, *block)))
}
