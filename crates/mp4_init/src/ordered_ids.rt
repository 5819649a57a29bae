//! Seeking a track_ID among some in order.

ghost use Rattle.std.specs.Prelude.{◌≡◌, ◌≤◌, ◌<◌, length, IfSome};
ghost use Rattle.mp4_init.specs.OrderedIds.{descend, sought};

/// A search takes so many steps, the first of them this long: half of the 65,536 that it can distinguish.
const LEVELS: u8 = 16;

const FIRST_STEP: usize = 32_768;

/// Where a search among ids in order ends, by so many steps, each half as long as the one before.
#[tactic(auto, unfolding(crate::specs::OrderedIds::descend))]
fn descend(levels: u8, step: usize, ids: &[u32], id: u32, at: usize) -> usize
    requires at { at ≤ length ids.now }
    requires step { step ≤ 32768 }
    ensures { result ≡ descend levels step ids.now id at }
{
    if levels == 0 {
        return at;
    }
    let next = at + step;
    let to = match ids.get(next) {
        Some(other) => { if id < *other { at } else { next } }
        None => at,
    };
    descend(levels - 1, step / 2, ids, id, to)
}

/// The place of a track_ID among at most 65,536 in order.
#[tactic(auto, unfolding(crate::specs::OrderedIds::sought))]
pub fn seek_in_order(ids: &[u32], id: u32) -> Option<usize>
    ensures place { result ≡ sought ids.now id }
    ensures within { IfSome result (λ k. k < length ids.now) }
{
    let at = descend(LEVELS, FIRST_STEP, ids, id, 0);
    match ids.get(at) {
        Some(other) => { if *other == id { Some(at) } else { None } }
        None => None,
    }
}
