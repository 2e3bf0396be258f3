//! What holds of all joins, for the proofs of callers. Each function does nothing.

ghost use Rattle.exh_join.specs.JoinLaws.{JoinLaws};
ghost use Rattle.exh_join.specs.Replicas.{ReplicasAgree};

use crate::Join;

/// The order of any `J` is a partial order, and its join is the least value that is at least both;
/// so it is commutative, associative and idempotent.
pub fn joins_are_least<J: Join>()
    ensures { JoinLaws J.IsAtMost J.join }
{}

/// Replicas of any `J` that began equal and took the same set of values are equal, in whatever order,
/// however often and through whatever other replicas they took them.
pub fn replicas_agree<J: Join>()
    ensures { ReplicasAgree J.join }
{}
