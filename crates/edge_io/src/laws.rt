//! A law about the names of policies, for callers.

ghost use Rattle.std.specs.Prelude.{◌≡◌, Some};
ghost use Rattle.edge_io.specs.declared.policy.FragPolicy.{FragPolicy};
ghost use Rattle.edge_io.specs.declared.policy.StreamPolicy.{StreamPolicy};
ghost use Rattle.edge_io.specs.Policies.{frag_name, frag_policy, stream_name, stream_policy};

/// Each of the seven fragment policies and of the thirteen stream policies is read by its name: none
/// is missing from the lists that `read` searches, and no two have one name.
pub fn policies_are_named()
    ensures frag { (policy : FragPolicy) → frag_policy (frag_name policy) ≡ Some policy }
    ensures stream { (policy : StreamPolicy) → stream_policy (stream_name policy) ≡ Some policy }
{}
