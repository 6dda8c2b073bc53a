ghost use Rattle.std.specs.Prelude.{◌≡◌, ℕ, List};
ghost use Rattle.pl_graph.specs.Graph.{AreEdges, IsCanonicalCycle, IsCycle, IsLeastTopological};
ghost use Rattle.pl_graph.specs.Graph.{IsTopological};

/// A graph has one least topological order at most, one canonical cycle at most, and never both a
/// topological order and a cycle. That it has the least order or the canonical cycle is what
/// `pl_graph::order` says: so each graph has exactly one of the two, and just one such list.
///
/// Nodes are the numbers below `n`. An edge `(a, b)` says that `a` depends on `b`.
pub fn orders_and_cycles_are_unique()
    ensures one_order { (n : ℕ) (edges : List (ℕ × ℕ)) (one other : List ℕ) →
        IsLeastTopological n edges one → IsLeastTopological n edges other → one ≡ other }
    ensures one_cycle { (n : ℕ) (edges : List (ℕ × ℕ)) (one other : List ℕ) →
        IsCanonicalCycle n edges one → IsCanonicalCycle n edges other → one ≡ other }
    ensures not_both { (n : ℕ) (edges : List (ℕ × ℕ)) (order cycle : List ℕ) → AreEdges n edges →
        IsTopological n edges order → IsCycle edges cycle → ⊥ }
{}
