// The slots that have a value.
ghost use Rattle.std.specs.Prelude.{◌≡◌, ◌≤◌, [], length, vec_len, vec_capacity};
ghost use Rattle.blob_lab_store.specs.Slots.{full_numbers, full_values};

/// Moves the slots that have a value, with their numbers, to two new tables, which have capacity for them.
pub(crate) fn full_slots<T>(
    numbers: &[usize],
    mut values: Vec<Option<T>>,
    mut full: Vec<usize>,
    mut moved: Vec<Option<T>>,
) -> (Vec<usize>, Vec<Option<T>>)
    requires paired { vec_len values ≡ length numbers.now }
    requires numbers { full.items ≡ [] }
    requires values { moved.items ≡ [] }
    requires for_numbers { vec_len values ≤ vec_capacity full }
    requires for_values { vec_len values ≤ vec_capacity moved }
    ensures numbers { result.0.items ≡ full_numbers numbers.now values.items }
    ensures values { result.1.items ≡ full_values values.items }
{
    while let Some(slot) = values.pop() {
        if let Some(value) = slot {
            full.push(numbers[values.len()]).unwrap();
            moved.push(Some(value)).unwrap();
        }
    }
    values.destroy_empty();
    full.reverse();
    moved.reverse();
    (full, moved)
}
