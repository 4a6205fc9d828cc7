//! Laws about flows, for callers.

ghost use Rattle.std.specs.Prelude.{◌≡◌, ◌≢◌, ℕ, ◌+◌, ◌<◌, ◌≤◌, Contains, List, [], ◌∷◌, Some, length};
ghost use Rattle.stream5_sessions.specs.declared.key.Key.{Key};
ghost use Rattle.stream5_sessions.specs.Liveness.{MaxFlows, evicted_flow, flow_number, live_flows, max_for};

/// Where no key was touched no flow lives.
pub fn no_touch_no_flow()
    ensures { (max : MaxFlows) → live_flows max [] ≡ [] }
{}

/// No more flows live than may of both protocols together, whatever was touched.
pub fn live_flows_are_few()
    ensures { (max : MaxFlows) (touches : List Key) → length (live_flows max touches) ≤ max.tcp + max.udp }
{}

/// A flow lives on at a touch, unless it is the one that the touch ends (`stays`); the flow of the key that is touched
/// lives then (`own`). So who begins and ends flows as touches tell has exactly the live ones.
pub fn flows_live_until_told()
    ensures stays { (max : MaxFlows) (touches : List Key) (key : Key) (flow : ℕ) → 0 < max_for max key.tcp
        → Contains (live_flows max touches) flow → evicted_flow max touches key ≢ Some flow
        → Contains (live_flows max (key ∷ touches)) flow }
    ensures own { (max : MaxFlows) (touches : List Key) (key : Key) → 0 < max_for max key.tcp
        → Contains (live_flows max (key ∷ touches)) (flow_number max (key ∷ touches) key) }
{}
