// A design while its tables are chosen.
ghost use Rattle.std.specs.Prelude.{◌≡◌, ◌+◌, ◌-◌, ◌≤◌, ◌<◌, length};
ghost use Rattle.design.specs.Limits.{most_tables};
ghost use Rattle.searching.specs.Designs.{with_pair};
ghost use Rattle.searching.specs.Search.{size_before, budget_before, rest_from, Kept, Open, Fitting, SlopesFor, Least};

use crate::slopes::SPREADS;
use design::{Design, Pair};
use general::pow2;
use sizing::bits_of;
use values::slopes::LargestSlopes;

// A design whose first pairs are chosen, `tables` of them, and can still be completed: where the bits of the next table begin, and size and
// budget so far. What all designs of the search have in common goes along: the largest slopes by a, a spread that none of them is below,
// and the limit on budgets.
#[derive(Clone, Copy)]
pub struct Prefix<'a> {
    pub design: Design,
    pub tables: u32,
    pub position: u32,
    pub bits: u64,
    pub budget: u64,
    pub limit: u64,
    pub least: u64,
    pub slopes: &'a [LargestSlopes; SPREADS],
    ghost kept: { Kept design tables position bits budget limit },
    ghost so_far: { Open design tables },
    ghost none_below: { Least design least },
    ghost known: { SlopesFor design slopes.now },
}

// The design with this pair for table i.
#[tactic(auto, unfolding(crate::specs::Designs::with_pair))]
pub fn with_pair(d: Design, i: u32, a: u32, b: u32) -> Design
    requires { (i < most_tables) × (length d.pairs ≡ most_tables) }
    ensures { result ≡ with_pair d i a b }
{
    let mut next = d;
    next.pairs[i as usize] = Pair { a, b };
    next
}

impl Prefix<'_> {
    // The size with a pair for the next table. How many bits its offsets have goes by the largest Hi + Lo by its a, which is looked up.
    pub fn size_with(&self, a: u32, b: u32) -> u64
        requires { (self.now.tables < self.now.design.m) × Fitting self.now.design self.now.tables a b }
        ensures { result ≡ size_before (with_pair self.now.design self.now.tables a b) (self.now.tables + 1) }
    {
        let sum = self.slopes[a as usize].sum;
        self.bits + pow2(a + b) * bits_of(sum, b, self.position) as u64
    }

    // The budget with it. A table's share takes its reach and the largest Hi - Lo by its a, which is looked up.
    pub fn budget_with(&self, a: u32, b: u32) -> u64
        requires { (self.now.tables < self.now.design.m) × Fitting self.now.design self.now.tables a b }
        ensures { result ≡ budget_before (with_pair self.now.design self.now.tables a b) (self.now.tables + 1) }
    {
        let reach = (pow2(b) - 1) * pow2(self.position);
        self.budget + reach * self.slopes[a as usize].spread
    }

    // What all tables from a position on add to the budget at least, since no spread is below `least`.
    pub fn rest_from(&self, position: u32) -> u64
        requires { position ≤ self.now.design.w - self.now.design.alpha }
        ensures { result ≡ rest_from self.now.design self.now.least position }
    {
        (pow2(self.design.w - self.design.alpha) - pow2(position)) * self.least
    }
}
