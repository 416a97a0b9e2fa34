ghost use Rattle.std.specs.Prelude.{◌≡◌, ◌-◌, ◌<◌, get_or, length, nat_lt, true};
ghost use Rattle.std.specs.List.Sorted.{IsPartitionedBy};
ghost use Rattle.shard_index.specs.Places.{front_of};

/// The first places of a list, up to the first that isn't below `front`. Those below it come first.
pub fn below(places: &[u32], front: usize) -> &[u32]
    ensures { IsPartitionedBy (λ place. nat_lt place front) places.now → result.now ≡ front_of front places.now }
{
    let whole = end_below(places, front);
    if whole {
        places
    } else {
        below_by_halving(places, front)
    }
}

/// Whether the last place is below `front`.
fn end_below(places: &[u32], front: usize) -> bool
    ensures some { result ≡ true → 0 < length places.now }
    ensures last { result ≡ true → get_or places.now (length places.now - 1) 0 < front }
{
    let many = places.len();
    many > 0 && (places[many - 1] as usize) < front
}

fn below_by_halving(places: &[u32], front: usize) -> &[u32]
    ensures { IsPartitionedBy (λ place. nat_lt place front) places.now → result.now ≡ front_of front places.now }
{
    let end = places.partition_point(|place| (*place as usize) < front);
    &places[..end]
}
