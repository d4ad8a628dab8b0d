//! What flame graphs show.
ghost use Rattle.flamebearer.specs.Laws.{AllAreShown, OuterNodesAreKept, RootsHaveAll, TotalsAreMadeUp, TreesAreSides};

/// The root has all values, and each total that a level shows is its own value and the totals of what stands below it.
/// What is kept isn't below what isn't, and nothing is shown as others where all nodes may be shown. It does nothing: its
/// clauses are the law.
pub fn what_flame_graphs_show()
    ensures tree { TreesAreSides }
    ensures root { RootsHaveAll }
    ensures children { TotalsAreMadeUp }
    ensures outer { OuterNodesAreKept }
    ensures no_other { AllAreShown }
{}
