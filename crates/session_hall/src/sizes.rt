// How many serve, and over how many shards.

ghost use Rattle.std.specs.Prelude.{◌≤◌};
ghost use Rattle.session_values.specs.Limits.{max_callers, max_shards};

/// How many callers a hall has, and over how many shards each of its tables lies.
#[derive(Clone, Copy)]
pub struct Sizes {
    pub callers: u32,
    pub shards: u32,
    ghost callers_fit: { (1 ≤ callers) × (callers ≤ max_callers) },
    ghost shards_fit: { (1 ≤ shards) × (shards ≤ max_shards) },
}
