//! Lists of which some items are marked, and the removal of the others.

ghost use Rattle.std.specs.Prelude.{◌≡◌, length};
ghost use Rattle.wt_keys.specs.Marks.{marked_items};

/// Takes away what isn't marked.
pub fn remove_unmarked<T: Drop>(items: &mut Vec<T>, marks: &[bool])
    requires { length marks.now ≡ length items.old.items }
    ensures { items.new.items ≡ marked_items marks.now items.old.items }
{
    let mut place = marks.len();
    while 0 < place {
        place -= 1;
        if !marks[place] {
            items.remove(place);
        }
    }
}
