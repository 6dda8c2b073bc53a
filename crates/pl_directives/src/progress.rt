ghost use Rattle.std.specs.Prelude.{◌≡◌};
ghost use Rattle.pl_directives.specs.Contents.{with_chain, with_count};
ghost use Rattle.pl_directives.specs.declared.progress.Chain.TheVariants.{Closed};

use pl_base::{List, MarkedNode, MarkedPair};

/// Whether `elseif` or `else` may follow, and whether a branch was taken.
#[derive(Clone, Copy, Debug, PartialEq, Eq)]
pub enum Chain {
    /// Neither may follow.
    Closed,
    /// Both may, and no branch was taken.
    Waiting,
    /// Both may, and a branch was taken.
    Taken,
}

/// A collection as far as it is expanded. It's unknown which one it will be where directives stand
/// alone that have given nothing yet.
#[derive(Drop)]
pub enum Content {
    Unknown,
    Items(List<MarkedNode>),
    Pairs(List<MarkedPair>),
}

/// How far the expansion of a collection has come: what is there, the chain of branches behind it,
/// and the count of the whole expansion.
#[derive(Drop)]
pub struct Progress {
    pub content: Content,
    pub chain: Chain,
    pub count: u32,
}

/// A node, and the count behind it.
#[derive(Drop)]
pub struct Counted {
    pub node: MarkedNode,
    pub count: u32,
}

impl Progress {
    /// The same behind another chain.
    pub fn chained(self, chain: Chain) -> Progress
        ensures { result ≡ with_chain chain self }
    {
        Progress {
            content: self.content,
            chain,
            count: self.count,
        }
    }

    /// The same content behind another chain and with another count.
    pub fn at(self, chain: Chain, count: u32) -> Progress
        ensures { result ≡ with_chain chain (with_count count self) }
    {
        let content = self.content;
        Progress {
            content,
            chain,
            count,
        }
    }

    /// The same with another count.
    pub fn counting(self, count: u32) -> Progress
        ensures { result ≡ with_count count self }
    {
        Progress {
            content: self.content,
            chain: self.chain,
            count,
        }
    }

    /// The same before the turns of a loop, which end a chain of branches, with another count.
    pub fn before_turns(self, count: u32) -> Progress
        ensures { result ≡ with_chain Closed (with_count count self) }
    {
        self.at(Chain::Closed, count)
    }
}
