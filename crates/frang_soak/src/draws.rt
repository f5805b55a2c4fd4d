// The generator of draws.
ghost use Rattle.std.specs.Prelude.{◌≡◌};
ghost use Rattle.frang_soak.specs.Draws.{draw_of, next_state};

/// The state after this one.
pub(crate) fn next_state(state: u64) -> u64
    ensures { result ≡ next_state state }
{
    state
        .wrapping_mul(6_364_136_223_846_793_005)
        .wrapping_add(1_442_695_040_888_963_407)
}

/// The draw that a state gives.
pub(crate) fn draw_of(state: u64) -> u64
    ensures { result ≡ draw_of state }
{
    state >> 33
}
