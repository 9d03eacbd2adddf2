// Declarations that name ones in front of them alone.
ghost use Rattle.std.specs.Prelude.{◌≡◌, ◌<◌, ℕ, true};
ghost use Rattle.psdl_lineage.specs.Descent.{has};
ghost use Rattle.psdl_members.specs.inner.Heirs.{IsInOrder};

use psdl_lineage::Graph;

fn are_in_front(numbers: &[usize], number: usize) -> bool
    ensures { result ≡ true → (p : ℕ) → has numbers.now p ≡ true → p < number }
{
    for named in numbers {
        if *named >= number {
            return false;
        }
    }
    true
}

/// How many declarations stand in front of the first that names one that is not in front of it.
pub(crate) fn count_in_order(graph: &Graph) -> usize
    ensures { IsInOrder graph.now result }
{
    for number in 0..graph.len() {
        if !are_in_front(graph.parents(number), number) {
            return number;
        }
    }
    graph.len()
}
