//! Room that was made beforehand.
ghost use Rattle.std.specs.Prelude.{◌≡◌, ◌++◌, ◌∷◌, [], ◌<◌, ◌≤◌, ◌+◌, vec_len};
ghost use Rattle.std.specs.Vec.{vec_capacity};

/// Appends an item, if there is room.
pub fn add<T: Drop>(list: &mut Vec<T>, item: T)
    requires { vec_len list.old < vec_capacity list.old }
    ensures items { list.new.items ≡ list.old.items ++ item ∷ [] }
    ensures len { vec_len list.new ≡ vec_len list.old + 1 }
    ensures capacity { vec_capacity list.old ≤ vec_capacity list.new }
{
    match list.push(item) {
        Ok(()) => {}
        Err(_) => unreachable!(),
    }
}
