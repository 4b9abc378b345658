ghost use Rattle.std.specs.Prelude.{◌≡◌};
ghost use Rattle.relabel_core.specs.Walk.{Walk, entry_lines, labels};
ghost use Rattle.relabel_core.specs.TableWalk.{table_walk};

/// A law: whoever goes over the entries once with a table of the groups' winners, and makes each
/// entry's label and line when it is met, makes the labels and the entries' lines of a walk. It
/// does nothing.
#[tactic(auto, using(crate::proofs::TableLemmas::same_labels, crate::proofs::TableLemmas::same_lines))]
pub fn table_walk_is_walk()
    ensures labels { (w : Walk) → (table_walk w).labels ≡ labels w }
    ensures lines { (w : Walk) → (table_walk w).lines ≡ entry_lines w }
{}
