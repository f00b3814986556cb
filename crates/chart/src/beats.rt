// Beats and views as numbers, within the bounds of a u32.

// No beat and no view: the engine refuses it.
const NEVER: u32 = u32::MAX;

// x + up - down, and 0 where that is no u32.
pub(crate) fn moved(x: u32, up: u32, down: u32) -> u32 {
    x.checked_add(up)
        .and_then(|y| y.checked_sub(down))
        .unwrap_or(0)
}

// Column k of view v.
pub(crate) fn beat_of(v: u32, k: u32) -> u32 {
    v.checked_mul(4).map_or(NEVER, |first| moved(first, k, 0))
}
