//! A variable that is moved up or down to where its activity belongs: the variables that it passes
//! move by one place each.
ghost use Rattle.std.specs.Prelude.{◌+◌, ◌*◌, ◌<◌, ◌≤◌, ◌^◌, ◌↔◌, ◌≢◌, ℕ, length, IsTrue};
ghost use Rattle.std.specs.Prelude.{slice_index, slice_set, MatchOption};
ghost use Rattle.variable_heap.specs.Heaps.{ComesBefore, IsFirstBelow, IsInverse, HaveSamePlaced};
ghost use Rattle.variable_heap.specs.Heaps.{IsOrdered, IsOrderedButUp, IsOrderedButDown};

/// Whether a variable comes before another: the more active one, and of two that are as active the
/// lower one.
fn comes_before(activity: &[u64], one: u32, other: u32) -> bool
    requires one { one < length activity.now }
    requires other { other < length activity.now }
    ensures { IsTrue result ↔ ComesBefore activity.now one other }
{
    let own = activity[one as usize];
    let others = activity[other as usize];
    own > others || (own == others && one < other)
}

/// Sets a variable at this place or above it.
pub(crate) fn rise(vars: &mut [u32], places: &mut [u32], from: usize, var: u32, activity: &[u64])
    requires within { from < length vars.old }
    requires few { length vars.old < 2 ^ 32 }
    requires known { length places.old ≤ length activity.now }
    requires inverse { IsInverse (slice_set vars.old from var)
        (slice_set places.old var (from + 1)) }
    ensures inverse { IsInverse vars.new places.new }
    ensures same { HaveSamePlaced (slice_set places.old var (from + 1)) places.new }
    ensures order { IsOrderedButUp activity.now (slice_set vars.old from var) from →
        IsOrdered activity.now vars.new }
{
    let mut place = from;
    while place > 0 {
        let above = (place - 1) / 2;
        let other = vars[above];
        if !comes_before(activity, var, other) {
            break;
        }
        vars[place] = other;
        places[other as usize] = place as u32 + 1;
        place = above;
    }
    vars[place] = var;
    places[var as usize] = place as u32 + 1;
}

/// The place below this one with the variable that comes first, where there is one.
fn below(vars: &[u32], place: usize, activity: &[u64]) -> Option<usize>
    requires within { place < length vars.now }
    requires known { (k : ℕ) → k < length vars.now → k ≢ place →
        slice_index vars.now k < length activity.now }
    ensures { MatchOption result (length vars.now ≤ 2 * place + 1)
        (IsFirstBelow activity.now vars.now place) }
{
    if place >= vars.len() / 2 {
        return None;
    }
    let left = 2 * place + 1;
    let right = left + 1;
    let is_right = right < vars.len() && comes_before(activity, vars[right], vars[left]);
    Some(if is_right { right } else { left })
}

/// Sets a variable at the top or below it.
pub(crate) fn sink(vars: &mut [u32], places: &mut [u32], var: u32, activity: &[u64])
    requires within { 0 < length vars.old }
    requires few { length vars.old < 2 ^ 32 }
    requires known { length places.old ≤ length activity.now }
    requires inverse { IsInverse (slice_set vars.old 0 var) (slice_set places.old var 1) }
    ensures inverse { IsInverse vars.new places.new }
    ensures same { HaveSamePlaced (slice_set places.old var 1) places.new }
    ensures order { IsOrderedButDown activity.now (slice_set vars.old 0 var) 0 →
        IsOrdered activity.now vars.new }
{
    let mut place = 0;
    while let Some(below) = below(vars, place, activity) {
        let other = vars[below];
        if comes_before(activity, var, other) {
            break;
        }
        vars[place] = other;
        places[other as usize] = place as u32 + 1;
        place = below;
    }
    vars[place] = var;
    places[var as usize] = place as u32 + 1;
}
