ghost use Rattle.std.specs.Prelude.{◌≡◌, ◌<◌, ◌≤◌, length, vec_capacity};
ghost use Rattle.std.specs.List.{insert};

/// Puts an element in at a place. There is memory for it.
pub(crate) fn insert_reserved<T: Drop>(list: &mut Vec<T>, place: usize, element: T)
    requires within { place ≤ length list.old.items }
    requires room { length list.old.items < vec_capacity list.old }
    ensures after { list.new.items ≡ insert list.old.items place element }
    ensures capacity { vec_capacity list.new ≡ vec_capacity list.old }
{
    match list.insert(place, element) {
        Ok(()) => {}
        Err(_) => unreachable!(),
    }
}
