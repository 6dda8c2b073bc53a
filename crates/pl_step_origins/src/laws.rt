ghost use Rattle.pl_step_origins.specs.Steps.{PlansExtendTheSame, StepsStandInTheTree};

/// A plan beside the tree of which it was made.
///
/// Each step of the plan stands in the tree, under its keys `stages`, `jobs` and `steps` (Microsoft
/// Learn, "YAML schema reference", steps): its mapping, and each node and key in it, has the origin
/// of a node or a key there. So what holds of the origins of all jobs of a tree holds of the steps
/// of its plan. And the plan extends the template that the tree does, or none where the tree
/// doesn't.
pub fn steps_stand_in_the_tree()
    ensures steps { StepsStandInTheTree }
    ensures extends { PlansExtendTheSame }
{}
